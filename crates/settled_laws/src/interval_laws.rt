// The laws of intervals, one a function.
ghost use Rattle.settled_laws.specs.FewIntervals.{IntervalsAreFew};
ghost use Rattle.settled_laws.specs.SettledIntervals.{IntervalsAreSettled};

/// An interval of 150/180 cycles, 10 minutes or 2 hours that ends by a place is told by the basic intervals
/// that end by it.
pub fn intervals_are_settled()
    ensures { IntervalsAreSettled }
{}

/// A recording has few basic intervals, windows and frequency readings.
pub fn intervals_are_few()
    ensures { IntervalsAreFew }
{}
