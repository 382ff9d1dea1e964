// A book is open while terms are added, closed while rules are given, and sound or clash after a check.
#[derive(Clone, Copy)]
pub enum Phase {
    Open,
    Closed,
    Sound,
    Clash,
}

// The calls, without their arguments.
#[derive(Clone, Copy)]
pub enum Event {
    Lay,
    AddTerm,
    Close,
    GiveRule,
    Strike,
    Check,
    Form,
    Cofactors,
    Table,
}
