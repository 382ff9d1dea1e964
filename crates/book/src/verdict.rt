// An enum and no Option: `None` would be the name of a sound book.
// What a check says: the rules are consistent, or they clash at a term for two variables, all counted from 1, with a number of entries.
#[derive(Clone, Copy, Debug, PartialEq)]
pub enum Verdict {
    Consistent,
    Clashes {
        term: usize,
        a: usize,
        b: usize,
        entries: usize,
    },
}
