use algebra::{Entry, Term};
use book::{Refusal, Verdict};

// A rule: a border term, its leading code, and a row.
#[derive(Drop)]
pub struct Given {
    pub term: Term,
    pub lead: u16,
    pub row: Vec<u16>,
}

// A call with its arguments; slices that a call writes are part of it.
#[derive(Drop)]
pub enum Call {
    Lay(u16),
    Term(Term),
    Close,
    Rule(Given),
    Strike(Term),
    Check(Vec<u16>, Vec<Entry>),
    Form(Vec<(u16, Term)>, Vec<u16>),
    Cofactors(Vec<(u16, Term)>, Vec<u16>, Vec<Entry>),
    Table(u16, Vec<u16>),
}

// What a granted call answers. A call with no answer of its own is done, which counts as 0.
// `Counted` keeps the 1 for yes or 0 for no that the book answers, so that every answer is the book's.
#[derive(Clone, Copy, Drop)]
pub enum Answer {
    Done,
    Border(usize),
    Checked(Verdict),
    Formed(bool),
    Counted(usize, u8), // the pair that `cofactors` answers
}

// A call and, once it was run, its answer.
#[derive(Drop)]
pub struct Line {
    pub call: Call,
    pub answer: Option<Result<Answer, Refusal>>,
}
