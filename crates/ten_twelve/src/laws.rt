// The law of this crate, as the contract of a function that does nothing.
ghost use Rattle.ten_twelve.specs.WholeList.{GivesRuns};

/// Over a whole list, the answers of a chopper are the runs of the list, each at its last element.
pub fn gives_runs()
    ensures { GivesRuns }
{}
