ghost use Rattle.std.specs.Prelude.{◌≤◌, length};

// A record with the bytes of its body, which are those of the sheet. `Kind` is its name without a body, as a writer has it.
#[derive(Clone, Copy)]
pub enum Record<'a> {
    Term(&'a [u8]),
    Close,
    Rule(&'a [u8]),
    Check,
    Question(&'a [u8]),
    Strike(&'a [u8]),
}

// A record with the place of its first byte, its count from 1 and the number of variables.
#[derive(Clone, Copy)]
pub struct Placed<'a> {
    pub byte: usize,
    pub count: usize,
    pub variables: u16,
    pub record: Record<'a>,
}

// Where the reading of a sheet stands.
#[derive(Clone, Copy)]
pub struct Reader<'a> {
    pub(crate) bytes: &'a [u8],
    pub(crate) at: usize,
    pub(crate) records: usize,
    pub(crate) variables: u16,
    ghost counted: { records ≤ at },
    ghost inside: { at ≤ length bytes.now },
    ghost short: { length bytes.now ≤ 65535 },
}
