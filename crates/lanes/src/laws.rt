// The laws of lanes, one a function.
ghost use Rattle.lanes.specs.LaneLaw.{LanesRise, ReachesTell};

/// Keys rise in each lane of a recording, from 1 on, to its number of samples at most.
pub fn lanes_rise()
    ensures { LanesRise }
{}

/// The reach of a lane rises with the number of its posted items, and tells it; within it, they are all that
/// a place needs.
pub fn reaches_tell()
    ensures { ReachesTell }
{}
