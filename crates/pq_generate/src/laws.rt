// The laws of this crate, each as the contract of a function that does nothing.
ghost use Rattle.pq_generate.specs.RecordingLaws.{CountsLieWithin, DatsAreWhole, DisturbancesLieApart, DisturbancesLieWithin};

/// The disturbance of an index lies in the 3000 cycles of its index.
pub fn disturbances_lie_within()
    ensures { DisturbancesLieWithin }
{}

/// No two disturbances overlap: a disturbance has ended where a later one begins.
pub fn disturbances_lie_apart()
    ensures { DisturbancesLieApart }
{}

/// No count is missing: each is at most six fifths of the sine's greatest.
pub fn counts_lie_within()
    ensures { CountsLieWithin }
{}

/// A dat has 14 bytes for each sample: 10,113,600 for each seed.
pub fn dats_are_whole()
    ensures { DatsAreWhole }
{}
