// Which spans events touch, told by how far those reach that begin before a place.
ghost use Rattle.std.specs.Prelude.{IfOk};
ghost use Rattle.std.specs.List.Sorted.{IsNonDecreasingBy};
ghost use Rattle.pq_sequence.specs.Touches.{AreReaches, TellsTouch};

use event_detect::Event;
use std::alloc::{AllocError, Global};
use ten_twelve::Span;

/// How far events reach: the place at which one begins, and the furthest end of those that begin there
/// or before it.
#[derive(Clone, Copy)]
pub struct Reach {
    pub start: u64,
    pub furthest: u64,
}

/// The reaches of events of all kinds, by where they begin.
pub fn reaches(alloc: Global, events: &[Event]) -> Result<Vec<Reach>, AllocError>
    ensures { IfOk result (λ found. AreReaches events.now found.items) }
{
    let mut sorted = Vec::from_slice(alloc, events)?;
    sorted.sort_unstable_by_key(|event| event.start);
    reaches_in_order(alloc, &sorted)
}

// The reaches of events that come in the order of their beginnings.
fn reaches_in_order(alloc: Global, events: &[Event]) -> Result<Vec<Reach>, AllocError>
    requires { IsNonDecreasingBy (λ event. event.start) events.now }
    ensures { IfOk result (λ found. AreReaches events.now found.items) }
{
    let mut found = Vec::with_capacity(alloc, events.len())?;
    let mut furthest = 0;
    for event in events {
        furthest = event.end.max(furthest);
        found.push(Reach {
            start: event.start,
            furthest,
        })?;
    }
    Ok(found)
}

/// Whether some event, of any kind, touches the span: whether one of those that begin before the span's
/// end ends after its start.
pub fn is_touched(reaches: &[Reach], span: Span) -> bool
    ensures { TellsTouch reaches.now span result }
{
    let count = reaches.partition_point(|reach| reach.start < span.end);
    count > 0 && span.start < reaches[count - 1].furthest
}

#[cfg(test)]
mod tests;
