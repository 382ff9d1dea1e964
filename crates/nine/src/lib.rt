// A field that the library does not supply, made by a user with nothing but the trait.
#![tactic(auto)]

ghost use Rattle.std.specs.Prelude.{◌≡◌, ◌*◌, ◌<◌};
ghost use Rattle.nine.specs.Nine.{nine_field, nine_code, nine_sum, nine_negative, nine_product};
ghost use Rattle.field.specs.Tables.{both, all_below, at_one, at_two, at_three, at_all, from_table};

use field::{Field, read_code};

// The field of order 9: the code a + 3·b stands for a + b·i, where i² = −1 over the residues modulo 3.
#[derive(Clone, Copy)]
pub struct Nine;

fn code(a: u16, b: u16) -> u16
    requires { (a < 100) × (b < 100) }
    ensures { result ≡ nine_code a b }
{
    a % 3 + 3 * (b % 3)
}

// The product of two residues, not yet reduced.
fn times(a: u16, b: u16) -> u16
    requires { (a < 3) × (b < 3) }
    ensures value { result ≡ a * b }
    ensures bound { result < 9 }
{
    a * b
}

impl Field for Nine {
    ghost meaning = { λ _. nine_field };

    ghost lawful = { unfold both all_below at_one at_two at_three at_all in λ f. from_table 9 nine_sum nine_negative nine_product tt };

    fn order(&self) -> u16 {
        9
    }

    fn sum(&self, a: u16, b: u16) -> u16 {
        let a = read_code(9, a);
        let b = read_code(9, b);
        code(a % 3 + b % 3, a / 3 + b / 3)
    }

    fn negative(&self, a: u16) -> u16 {
        let a = read_code(9, a);
        code(3 - a % 3, 3 - a / 3)
    }

    fn product(&self, a: u16, b: u16) -> u16 {
        let a = read_code(9, a);
        let b = read_code(9, b);
        let (x, y) = (a % 3, a / 3);
        let (u, v) = (b % 3, b / 3);
        code(times(x, u) + 2 * times(y, v), times(x, v) + times(y, u))
    }
}
