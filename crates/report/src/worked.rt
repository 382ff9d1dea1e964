ghost use Rattle.report.specs.Worked.{Worked};

// The worked examples, all of them computed.
pub fn worked_examples()
    ensures { Worked }
{}
