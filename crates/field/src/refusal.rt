ghost use Rattle.std.specs.Prelude.{◌≡◌};
ghost use Rattle.field.specs.Refusal.{number_of};

// Why no field was made.
#[derive(Clone, Copy, Debug, PartialEq)]
pub enum Refusal {
    UnknownField,
}

impl Refusal {
    // A method as a book's refusals have: the numbers are one list over the library, and those of a book are 1 to 16.
    pub fn number(self) -> u16
        ensures { result ≡ number_of self }
    {
        match self {
            Refusal::UnknownField => 17,
        }
    }
}
