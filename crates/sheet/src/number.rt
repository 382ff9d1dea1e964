ghost use Rattle.std.specs.Prelude.{◌≡◌, ◌<◌};
ghost use Rattle.sheet.specs.Number.{within as within_limit, ending as ending_of, third, second, read_number, ReadAsWritten};

// Why bytes are no number.
#[derive(Clone, Copy, Debug, PartialEq)]
pub enum NumberCause {
    Unfinished,
    NotShortest,
    TooLarge,
}

fn within(limit: u16, value: u32, size: usize) -> Result<(u16, usize), NumberCause>
    ensures { result ≡ within_limit limit value size }
{
    if value <= limit as u32 {
        Ok((value as u16, size))
    } else {
        Err(NumberCause::TooLarge)
    }
}

fn ending(limit: u16, last: u8, value: u32, size: usize) -> Result<(u16, usize), NumberCause>
    ensures { result ≡ ending_of limit last value size }
{
    if last == 0 {
        Err(NumberCause::NotShortest)
    } else {
        within(limit, value, size)
    }
}

// Three functions for three bytes, and no loop: each byte has limits of its own.
fn third_byte(limit: u16, low: u32, bytes: &[u8]) -> Result<(u16, usize), NumberCause>
    requires { low < 16384 }
    ensures { result ≡ third limit low bytes.now }
{
    match bytes {
        [] => Err(NumberCause::Unfinished),
        [b, ..] => {
            if *b < 128 {
                ending(limit, *b, low + 16384 * *b as u32, 3)
            } else {
                Err(NumberCause::TooLarge)
            }
        }
    }
}

fn second_byte(limit: u16, low: u32, bytes: &[u8]) -> Result<(u16, usize), NumberCause>
    requires { low < 128 }
    ensures { result ≡ second limit low bytes.now }
{
    match bytes {
        [] => Err(NumberCause::Unfinished),
        [b, rest @ ..] => {
            if *b < 128 {
                ending(limit, *b, low + 128 * *b as u32, 2)
            } else {
                third_byte(limit, low + 128 * (*b as u32 - 128), rest)
            }
        }
    }
}

// The number at the front of the bytes, with how many of them it takes. The limit is the caller's, and belongs to no bytes.
pub fn read_number(limit: u16, bytes: &[u8]) -> Result<(u16, usize), NumberCause>
    ensures value { result ≡ read_number limit bytes.now }
    ensures back { ReadAsWritten limit bytes.now result }
{
    match bytes {
        [] => Err(NumberCause::Unfinished),
        [b, rest @ ..] => {
            if *b < 128 {
                within(limit, *b as u32, 1)
            } else {
                second_byte(limit, *b as u32 - 128, rest)
            }
        }
    }
}
