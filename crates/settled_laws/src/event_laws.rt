// The law of events.
ghost use Rattle.settled_laws.specs.SettledEvents.{EventsAreSettled};

/// An event that ends by a place is told by the windows that begin before it, and so is what touches a span
/// up to it.
pub fn events_are_settled()
    ensures { EventsAreSettled }
{}
