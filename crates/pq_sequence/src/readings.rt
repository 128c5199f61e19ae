// Frequency readings, as items.
ghost use Rattle.std.specs.Prelude.{◌≡◌, OnOk};
ghost use Rattle.pq_sequence.specs.Measured.{AddsReadings};
ghost use Rattle.pq_sequence.specs.SequentialResult.{reading_item};
ghost use Rattle.pq_sequence.specs.Touches.{ForEventsOf};

use crate::clock::clock_of;
use crate::cycles::recorded_rule;
use crate::touches::{Reach, is_touched};
use freq10s::{Reading, Readings};
use pq_base::Recording;
use pq_items::Item;
use std::alloc::AllocError;
use ten_twelve::Span;

/// Adds the readings of the reference channel, flagged by the reaches of the recording's events.
pub fn push_readings(
    items: &mut Vec<Item>,
    recording: &Recording,
    reaches: &[Reach],
) -> Result<(), AllocError>
    ensures { OnOk result (AddsReadings recording.now reaches.now items.old items.new) }
{
    let samples = recording.samples(recording.reference());
    for reading in Readings::new(samples, recorded_rule(recording), clock_of(recording)) {
        items.push(item(reading, reaches))?;
    }
    Ok(())
}

// A reading as an item, flagged where some event touches its span.
fn item(reading: Reading, reaches: &[Reach]) -> Item
    ensures { ForEventsOf reaches.now (λ events. result ≡ reading_item events reading) }
{
    let Reading {
        tick,
        start,
        end,
        cycles,
        microhertz,
        ..
    } = reading;
    Item::Frequency {
        tick,
        start,
        end,
        cycles,
        microhertz,
        flagged: is_touched(reaches, Span { start, end }),
    }
}
