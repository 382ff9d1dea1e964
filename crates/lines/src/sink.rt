// Where the bytes of a line go one after another. A trait of its own and no `Display`: no contract says that a `fmt` succeeds, and a line that has room is not refused.
ghost use Rattle.std.specs.Prelude.{ℕ, List, length};
ghost use Rattle.lines.specs.Sink.{SinkLaws};
ghost use Rattle.lines.specs.Sinks.{count_fits, counted, count_laws, front_fits, Filled, front_laws};

pub(crate) trait Sink {
    // It has room for so many bytes more.
    ghost fits: { Self → ℕ → Type 0 };

    // It took these bytes, from one state to another.
    ghost took: { Self → List ℕ → Self → Type 0 };

    fn put(&mut self, bytes: &[u8])
        requires { fits self.old (length bytes.now) }
        ensures { took self.old bytes.now self.new };

    ghost laws: { SinkLaws fits took };
}

// How many bytes came.
#[derive(Drop)]
pub(crate) struct Count(pub(crate) u128);

impl Sink for Count {
    ghost fits = { count_fits };

    ghost took = { counted };

    ghost laws = { count_laws };

    fn put(&mut self, bytes: &[u8]) {
        self.0 = self.0.saturating_add(bytes.len() as u128);
    }
}

// An output of a caller that is filled from its front, since the library has no heap. The writer of `sheet_write` does the same, but is private there: its methods ask for room, and no public function asks for anything.
#[derive(Drop)]
pub(crate) struct Front<'a> {
    pub(crate) out: &'a mut [u8],
    pub(crate) at: usize,
}

impl Sink for Front<'_> {
    ghost fits = { front_fits };

    ghost took = { Filled };

    ghost laws = { front_laws };

    fn put(&mut self, bytes: &[u8]) {
        let end = self.at + bytes.len();
        self.out[self.at..end].copy_from_slice(bytes);
        self.at = end;
    }
}
