ghost use Rattle.run.specs.Worked.{WorkedRuns};

// The worked runs hold by computation through the ledger's definitions.
pub fn worked_runs()
    ensures { WorkedRuns }
{}
