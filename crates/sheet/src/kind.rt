ghost use Rattle.std.specs.Prelude.{◌≡◌, ◌≤◌};
ghost use Rattle.sheet.specs.Body.{kind_number, total as total_of, limit_at, is_full, whole_after};
ghost use Rattle.sheet.specs.Kind.{named};

// What a record is.
#[derive(Clone, Copy, Debug, PartialEq)]
pub enum Kind {
    Term,
    Close,
    Rule,
    Check,
    Question,
    Strike,
}

// A number that is no kind's.
#[derive(Clone, Copy, Debug, PartialEq)]
pub struct UnknownKind(pub u16);

impl TryFrom<u16> for Kind {
    type Error = UnknownKind;

    ghost try_from_gives = { λ number r. r ≡ named number };

    fn try_from(number: u16) -> Result<Kind, UnknownKind> {
        match number {
            1 => Ok(Kind::Term),
            2 => Ok(Kind::Close),
            3 => Ok(Kind::Rule),
            4 => Ok(Kind::Check),
            5 => Ok(Kind::Question),
            6 => Ok(Kind::Strike),
            _ => Err(UnknownKind(number)),
        }
    }
}

impl From<Kind> for u16 {
    ghost from_gives = { λ kind r. r ≡ kind_number kind };

    fn from(kind: Kind) -> u16 {
        match kind {
            Kind::Term => 1,
            Kind::Close => 2,
            Kind::Rule => 3,
            Kind::Check => 4,
            Kind::Question => 5,
            Kind::Strike => 6,
        }
    }
}

impl Kind {
    // Here and below `n` comes from the heading and the kind from the record: a struct of the two would be made only to call these.

    // How many numbers its body holds with `n` variables, of which a question's first counts the pairs; at least so many in a rule.
    pub fn total(self, n: u16, first: u16) -> usize
        ensures { result ≡ total_of self n first }
    {
        match self {
            Kind::Term | Kind::Strike => n as usize,
            Kind::Close | Kind::Check => 0,
            Kind::Rule => n as usize + 1,
            Kind::Question => first as usize * (n as usize + 1) + 1,
        }
    }

    // The same, once its number `j` is read: the first may say how many there are.
    pub fn whole_after(self, n: u16, j: usize, value: u16, whole: usize) -> usize
        ensures { result ≡ whole_after self n j value whole }
    {
        if j == 0 { self.total(n, value) } else { whole }
    }

    // What its number `j`, from 0, is at most.
    pub fn limit(self, n: u16, j: usize) -> u16
        ensures { result ≡ limit_at self n j }
    {
        match self {
            Kind::Rule => { if j < n as usize { 255 } else { 65535 } }
            Kind::Question => {
                if j == 0 || (j - 1) % (n as usize + 1) == 0 {
                    65535
                } else {
                    255
                }
            }
            _ => 255,
        }
    }

    // Whether `j` numbers leave no room for another.
    pub fn is_full(self, j: usize, whole: usize) -> bool
        ensures { result ≡ is_full self j whole }
    {
        match self {
            Kind::Rule => false,
            _ => whole <= j,
        }
    }
}
