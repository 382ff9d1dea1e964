ghost use Rattle.sheet.specs.Worked.{Worked};

// The worked examples of numbers in bytes.
pub fn examples_stand() -> u8
    ensures { Worked }
{
    0
}
