// Words and numbers put into a sink one after another, by hand: `Sink` has the reason.
ghost use Rattle.std.specs.Prelude.{◌*◌, ◌≤◌, length, decimal};
ghost use Rattle.lines.specs.Line.{spaced, all_spaced, three};

use crate::sink::Sink;

// The digits of a number.
fn say_decimal<S: Sink>(sink: &mut S, n: usize)
    requires { S.fits sink.old (length (decimal n)) }
    ensures bytes { S.took sink.old (decimal n) sink.new }
    ensures few { length (decimal n) ≤ 20 }
{
    let digit = [b'0' + (n % 10) as u8];
    if n < 10 {
        sink.put(&digit)
    } else {
        say_decimal(sink, n / 10);
        sink.put(&digit)
    }
}

// A space and a number.
pub(crate) fn say_spaced<S: Sink>(sink: &mut S, n: usize)
    requires { S.fits sink.old (length (spaced n)) }
    ensures bytes { S.took sink.old (spaced n) sink.new }
    ensures few { length (spaced n) ≤ 21 }
{
    sink.put(b" ");
    say_decimal(sink, n)
}

// Three numbers and the line's end.
pub(crate) fn say_three<S: Sink>(sink: &mut S, a: usize, b: usize, c: usize)
    requires { S.fits sink.old (length (three a b c)) }
    ensures bytes { S.took sink.old (three a b c) sink.new }
    ensures few { length (three a b c) ≤ 64 }
{
    say_spaced(sink, a);
    say_spaced(sink, b);
    say_spaced(sink, c);
    sink.put(b"\n")
}

// Each code after a space.
pub(crate) fn say_codes<S: Sink>(sink: &mut S, codes: &[u16])
    requires { S.fits sink.old (length (all_spaced codes.now)) }
    ensures bytes { S.took sink.old (all_spaced codes.now) sink.new }
    ensures few { length (all_spaced codes.now) ≤ 21 * length codes.now }
{
    for code in codes {
        say_spaced(sink, *code as usize);
    }
}
