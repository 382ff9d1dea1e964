ghost use Rattle.std.specs.Prelude.{◌≡◌};
ghost use Rattle.tables.specs.Request.{decimal_number, of_kind as kind_of, request};

use crate::cut::cut;

// The field that a line of input asks for.
#[derive(Clone, Copy)]
pub enum Request {
    PrimeField(u16),
    BinaryField(u16),
}

// Why a line asks for none.
#[derive(Clone, Copy)]
pub enum RequestError {
    UnknownKind,
    NoPair,
}

// The number of a line of decimal digits. `parse` refuses one past 65,535, which counts as 65,535 here.
fn number(digits: &[u8]) -> Option<u16>
    ensures { result ≡ decimal_number digits.now }
{
    if digits.is_empty() {
        return None;
    }
    digits.iter().try_fold(0u16, |n, b| match *b {
        b'0'..=b'9' => Some(n.saturating_mul(10).saturating_add((*b - b'0') as u16)),
        _ => None,
    })
}

fn of_kind(word: &[u8], n: u16) -> Result<Request, RequestError>
    ensures { result ≡ kind_of word.now n }
{
    match word {
        b"prime" => Ok(Request::PrimeField(n)),
        b"binary" => Ok(Request::BinaryField(n)),
        _ => Err(RequestError::UnknownKind),
    }
}

impl<'a> TryFrom<&'a [u8]> for Request {
    type Error = RequestError;

    ghost try_from_gives = { λ line r. r ≡ request line.now };

    fn try_from(line: &'a [u8]) -> Result<Request, RequestError> {
        let (word, digits) = cut(line, b' ');
        if word.is_empty() {
            return Err(RequestError::NoPair);
        }
        let n = number(digits).ok_or(RequestError::NoPair)?;
        of_kind(word, n)
    }
}
