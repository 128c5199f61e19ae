// The laws of this crate, each as the contract of a function that does nothing.
ghost use Rattle.event_detect.specs.Threshold.{KeepsApart};
ghost use Rattle.event_detect.specs.WholeList.{GivesEvents};

/// Over a whole list, the answers of a detector are the events of the list, each at the window that
/// ends it.
pub fn gives_events()
    ensures { GivesEvents }
{}

/// No value both begins and ends an event of one kind, where the thresholds are in order.
pub fn classes_are_apart()
    ensures { KeepsApart }
{}
