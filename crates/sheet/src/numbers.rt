// What is left of a body whose numbers come out one after another.
#[derive(Clone, Copy)]
pub struct Numbers<'a> {
    pub(crate) rest: &'a [u8],
}
