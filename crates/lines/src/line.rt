ghost use Rattle.std.specs.Prelude.{◌≡◌, ◌+◌, ◌-◌, ◌*◌, ◌^◌, ◌≤◌, min, true, length, is_ok};
ghost use Rattle.sheet_write.specs.Writing.{answer, held, with_room};
ghost use Rattle.lines.specs.Line.{said, text, member_word, width, fault as fault_line, form as form_line, clash as clash_line};

use crate::fault::Fault;
use crate::sink::{Count, Front, Sink};
use crate::text::{say_codes, say_spaced, say_three};
use sheet::{RecordFault, SheetFault};

// A line of a report: what a check said, the form of a question, or the fault that ended the run.
#[derive(Clone, Copy)]
pub enum Line<'a> {
    Sound,
    Clash {
        term: usize,
        a: usize,
        b: usize,
    },
    Form {
        codes: &'a [u16],
        member: bool,
        count: usize,
    },
    Fault(Fault),
}

// Bytes, as a sink takes them.
fn member_word(member: bool) -> &'static [u8]
    ensures { result.now ≡ member_word member }
{
    if member { b" member" } else { b" other" }
}

// By hand, as all that says a part of a line: `Sink` has the reason.
fn say_fault<S: Sink>(sink: &mut S, fault: Fault)
    requires { S.fits sink.old (length (text (fault_line fault))) }
    ensures bytes { S.took sink.old (text (fault_line fault)) sink.new }
    ensures few { length (text (fault_line fault)) ≤ 80 }
{
    sink.put(b"fault ");
    sink.put(fault.layer().name().as_bytes());
    say_three(sink, fault.number() as usize, fault.byte(), fault.record())
}

fn say_form<S: Sink>(sink: &mut S, codes: &[u16], member: bool, count: usize)
    requires { S.fits sink.old (length (text (form_line codes.now member count))) }
    ensures bytes { S.took sink.old (text (form_line codes.now member count)) sink.new }
    ensures few { length (text (form_line codes.now member count)) ≤ 80 + 21 * length codes.now }
{
    sink.put(b"form");
    say_codes(sink, codes);
    sink.put(member_word(member));
    say_spaced(sink, count);
    sink.put(b"\n")
}

fn say_clash<S: Sink>(sink: &mut S, term: usize, a: usize, b: usize)
    requires { S.fits sink.old (length (text (clash_line term a b))) }
    ensures bytes { S.took sink.old (text (clash_line term a b)) sink.new }
    ensures few { length (text (clash_line term a b)) ≤ 80 }
{
    sink.put(b"check clash");
    say_three(sink, term, a, b)
}

// Three numbers of 64 bits are short enough.
fn clash_fits(term: usize, a: usize, b: usize, room: usize) -> bool
    ensures { result ≡ true → length (text (clash_line term a b)) ≤ room }
{
    80 <= room
}

// So are a space and a code, in 21 bytes.
fn form_fits(codes: &[u16], member: bool, count: usize, room: usize) -> bool
    ensures { result ≡ true → length (text (form_line codes.now member count)) ≤ room }
{
    80 + 21 * codes.len() as u128 <= room as u128
}

impl Line<'_> {
    // Puts the bytes of the line into a sink that has room for them.
    fn say<S: Sink>(self, sink: &mut S)
        requires { S.fits sink.old (length (text (said self))) }
        ensures bytes { S.took sink.old (text (said self.entry)) sink.new }
        ensures few { length (text (said self.entry)) ≤ width (said self.entry) }
    {
        match self {
            Line::Sound => sink.put(b"check sound\n"),
            Line::Clash { term, a, b } => say_clash(sink, term, a, b),
            Line::Form {
                codes,
                member,
                count,
            } => say_form(sink, codes, member, count),
            Line::Fault(fault) => say_fault(sink, fault),
        }
    }

    // How many bytes the line takes.
    fn size(self) -> u128
        ensures value { result ≡ min (length (text (said self.entry))) (2 ^ 128 - 1) }
        ensures few { length (text (said self.entry)) ≤ width (said self.entry) }
    {
        let mut count = Count(0);
        self.say(&mut count);
        count.0
    }

    // Whether there is room for the longest line of its kind: its bytes need no count then. A fault comes once in a report, and is always counted.
    fn surely_fits(self, room: usize) -> bool
        ensures { result ≡ true → length (text (said self.entry)) ≤ room }
    {
        match self {
            Line::Sound => 80 <= room,
            Line::Clash { term, a, b } => clash_fits(term, a, b, room),
            Line::Form {
                codes,
                member,
                count,
            } => form_fits(codes, member, count, room),
            Line::Fault(_) => false,
        }
    }

    // Writes the line at the front of the output, and answers how many bytes it takes; where it has no room, it is refused with 24 and nothing is written.
    pub fn write(self, out: &mut [u8]) -> Result<usize, SheetFault>
        ensures value { result ≡ answer (with_room out.old (text (said self.entry))) }
        ensures after { out.new ≡ held (with_room out.old (text (said self.entry))) out.old }
        ensures room { width (said self.entry) ≤ length out.old → is_ok result ≡ true }
    {
        if !self.surely_fits(out.len()) && self.size() > out.len() as u128 {
            return Err(RecordFault::ShortOutput.into());
        }
        let mut front = Front { out, at: 0 };
        self.say(&mut front);
        Ok(front.at)
    }
}
