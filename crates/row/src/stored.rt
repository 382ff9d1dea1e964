ghost use Rattle.std.specs.Prelude.{◌≡◌, []};
ghost use Rattle.std.specs.Option.{unwrap_or};
ghost use Rattle.algebra.specs.Border.{Row};

// A row as a caller keeps it at a place: plain, or one that may be missing. So rows are lent as they lie, and none is copied.
pub trait StoredRow {
    ghost codes: { Self → Row };

    fn codes(&self) -> &[u16]
        ensures { result.now ≡ codes self.now };
}

impl StoredRow for [u16; 32] {
    ghost codes = { λ row. row };

    fn codes(&self) -> &[u16] {
        &self[..]
    }
}

// Empty where there is none: it is added as it is, and counts as 0.
impl StoredRow for Option<[u16; 32]> {
    ghost codes = { λ row. unwrap_or row [] };

    fn codes(&self) -> &[u16] {
        match self {
            Some(row) => row,
            None => &[],
        }
    }
}
