// Laws of results and fronts, as the contracts of calls that do nothing.
ghost use Rattle.pq_sequence.specs.WholeResult.{CutIsPrefix, EventsLieWithin, FrontsRise};

/// The items that end by a place are the first ones of the result.
pub fn cut_is_prefix()
    ensures { CutIsPrefix }
{}

/// The events of a recording lie in it, on its channels.
pub fn events_lie_within()
    ensures { EventsLieWithin }
{}

/// Places and fronts of later moments are no earlier, and the fronts of the ticks are starts of runs.
pub fn fronts_rise()
    ensures { FrontsRise }
{}
