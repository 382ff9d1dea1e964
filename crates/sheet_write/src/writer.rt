ghost use Rattle.std.specs.Prelude.{◌≡◌, ◌+◌, ◌≤◌, length};
ghost use Rattle.sheet.specs.Number.{number_bytes};
ghost use Rattle.sheet_write.specs.Puts.{Puts};
ghost use Rattle.sheet_write.specs.Writing.{flat};

// The output of a caller, since the library has no heap, and where the next byte goes in it.
// Each of the three public writers asks first whether there is room, since the methods here ask for it; what they measure and put has nothing else in common.
// That the output stays the caller's (`same`) each method has to say: Rattle has no other place for it.
#[derive(Drop)]
pub(crate) struct Writer<'a> {
    pub(crate) out: &'a mut [u8],
    pub(crate) at: usize,
}

impl Writer<'_> {
    // Puts the bytes and moves past them.
    pub(crate) fn bytes(&mut self, bytes: &[u8])
        requires { self.old.at + length bytes.now ≤ length self.old.out.now }
        ensures same { self.new.out.ghost_name ≡ self.old.out.ghost_name }
        ensures puts { Puts self.old self.new bytes.now }
    {
        let to = self.at + bytes.len();
        self.out[self.at..to].copy_from_slice(bytes);
        self.at = to;
    }

    pub(crate) fn number(&mut self, value: u16)
        requires { self.old.at + length (number_bytes value) ≤ length self.old.out.now }
        ensures same { self.new.out.ghost_name ≡ self.old.out.ghost_name }
        ensures puts { Puts self.old self.new (number_bytes value) }
    {
        match value {
            0..=127 => self.bytes(&[value as u8]),
            128..=16383 => self.bytes(&[(128 + value % 128) as u8, (value / 128) as u8]),
            _ => self.bytes(&[
                (128 + value % 128) as u8,
                (128 + value / 128 % 128) as u8,
                (value / 16384) as u8,
            ]),
        }
    }

    pub(crate) fn numbers(&mut self, numbers: &[u16])
        requires { self.old.at + length (flat numbers.now) ≤ length self.old.out.now }
        ensures same { self.new.out.ghost_name ≡ self.old.out.ghost_name }
        ensures puts { Puts self.old self.new (flat numbers.now) }
    {
        for &number in numbers {
            self.number(number);
        }
    }
}
