ghost use Rattle.std.specs.Prelude.{◌≡◌};
ghost use Rattle.book.specs.Phases.{number_of, beside as beside_of};

// Why a call was refused. A place counts from 1.
#[derive(Clone, Copy, Debug, PartialEq)]
pub enum Refusal {
    VariablesOutOfRange,
    WrongPhase,
    ExponentPastVariables(usize),
    TermPresent,
    TermNotJoined,
    TooManyTerms,
    NoTerms,
    NotOnBorder,
    WrongLength,
    CodeOutOfRange(usize),
    ZeroLeadingCode,
    RuleMissing(usize),
    TooManyPairs,
    DegreeTooHigh(usize),
    EntriesTooShort,
    NoSuchVariable,
}

impl Refusal {
    // Two methods and no `From`: a refusal has two numbers, and `u16::from` would not say which.
    pub fn number(self) -> u16
        ensures { result ≡ number_of self }
    {
        match self {
            Refusal::VariablesOutOfRange => 1,
            Refusal::WrongPhase => 2,
            Refusal::ExponentPastVariables(_) => 3,
            Refusal::TermPresent => 4,
            Refusal::TermNotJoined => 5,
            Refusal::TooManyTerms => 6,
            Refusal::NoTerms => 7,
            Refusal::NotOnBorder => 8,
            Refusal::WrongLength => 9,
            Refusal::CodeOutOfRange(_) => 10,
            Refusal::ZeroLeadingCode => 11,
            Refusal::RuleMissing(_) => 12,
            Refusal::TooManyPairs => 13,
            Refusal::DegreeTooHigh(_) => 14,
            Refusal::EntriesTooShort => 15,
            Refusal::NoSuchVariable => 16,
        }
    }

    // The place that stands beside the number. 0 and no Option, since 0 is what is printed where there is none.
    pub fn beside(self) -> usize
        ensures { result ≡ beside_of self }
    {
        match self {
            Refusal::ExponentPastVariables(place) => place,
            Refusal::CodeOutOfRange(place) => place,
            Refusal::RuleMissing(place) => place,
            Refusal::DegreeTooHigh(place) => place,
            _ => 0,
        }
    }
}
