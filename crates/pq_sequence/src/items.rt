// Intervals and events, as items.
ghost use Rattle.std.specs.Prelude.{◌≡◌, ◌<◌, length, All, OnOk};
ghost use Rattle.pq_sequence.specs.Lists.{Adds};
ghost use Rattle.pq_sequence.specs.Measured.{group_item as item_of_one_group, group_items, item_of_length, items_of_group, items_of_one, measured_item, measured_items};
ghost use Rattle.pq_sequence.specs.SequentialResult.{event_items, item_of_kind};

use crate::basics::BasicInterval;
use crate::cycles::cycles_of_line;
use aggregate::Group;
use event_detect::{Event, Kind};
use pq_base::Recording;
use pq_items::Item;
use std::alloc::AllocError;

/// How long an aggregated interval is.
#[derive(Clone, Copy)]
pub enum Length {
    Short,
    TenMinutes,
    TwoHours,
}

/// Adds basic intervals, one item a channel of each.
pub fn push_basics(
    items: &mut Vec<Item>,
    recording: &Recording,
    basics: &[BasicInterval],
) -> Result<(), AllocError>
    ensures { OnOk result (Adds items.old items.new (measured_items recording.now basics.now)) }
{
    for basic in basics {
        push_basic(items, recording, basic)?;
    }
    Ok(())
}

/// Adds aggregated intervals of one length, one item a channel of each.
pub fn push_groups(
    items: &mut Vec<Item>,
    recording: &Recording,
    long: Length,
    groups: &[Group],
) -> Result<(), AllocError>
    ensures { OnOk result (Adds items.old items.new (group_items long recording.now groups.now)) }
{
    for group in groups {
        push_group(items, recording, long, group)?;
    }
    Ok(())
}

/// Adds events.
pub fn push_events(
    items: &mut Vec<Item>,
    recording: &Recording,
    events: &[Event],
) -> Result<(), AllocError>
    requires { All (λ event. event.channel < length recording.now.numbers) events.now }
    ensures { OnOk result (Adds items.old items.new (event_items recording.now events.now)) }
{
    for event in events {
        items.push(event_item(recording.number(event.channel), event))?;
    }
    Ok(())
}

/// An aggregated interval of a length as an item of a channel, with its value.
pub fn item_of_length(long: Length, channel: u32, group: &Group, value: u64) -> Item
    ensures { result ≡ item_of_length long channel group.now value }
{
    let Group {
        start,
        end,
        flagged,
        ..
    } = *group;
    let tick = group.tick.unwrap_or(0);
    match long {
        Length::Short => Item::Short {
            channel,
            start,
            end,
            value,
            flagged,
        },
        Length::TenMinutes => Item::Ten {
            channel,
            tick,
            start,
            end,
            basics: group.count,
            value,
            flagged,
        },
        Length::TwoHours => Item::TwoHour {
            channel,
            tick,
            start,
            end,
            value,
            flagged,
        },
    }
}

/// An event as an item, with the number of its channel.
pub fn event_item(channel: u32, event: &Event) -> Item
    ensures { result ≡ item_of_kind event.now.kind channel event.now }
{
    let Event {
        kind,
        start,
        end,
        value,
        is_open,
        ..
    } = *event;
    match kind {
        Kind::Dip => Item::Dip {
            channel,
            start,
            end,
            value,
            is_open,
        },
        Kind::Swell => Item::Swell {
            channel,
            start,
            end,
            value,
            is_open,
        },
        Kind::Interruption => Item::Interruption {
            channel,
            start,
            end,
            value,
            is_open,
        },
    }
}

// Adds a basic interval, one item a channel.
fn push_basic(
    items: &mut Vec<Item>,
    recording: &Recording,
    basic: &BasicInterval,
) -> Result<(), AllocError>
    ensures { OnOk result (Adds items.old items.new (items_of_one recording.now basic.now)) }
{
    for position in 0..recording.channels() {
        items.push(basic_item(recording, basic, position))?;
    }
    Ok(())
}

// Adds an aggregated interval, one item a channel.
fn push_group(
    items: &mut Vec<Item>,
    recording: &Recording,
    long: Length,
    group: &Group,
) -> Result<(), AllocError>
    ensures { OnOk result (Adds items.old items.new (items_of_group long recording.now group.now)) }
{
    for position in 0..recording.channels() {
        items.push(group_item(recording, long, group, position))?;
    }
    Ok(())
}

// A basic interval as the item of the channel at a position.
fn basic_item(recording: &Recording, basic: &BasicInterval, position: u32) -> Item
    requires { position < length recording.now.numbers }
    ensures { result ≡ measured_item recording.now basic.now position }
{
    Item::Basic {
        channel: recording.number(position),
        start: basic.span.start,
        end: basic.span.end,
        cycles: cycles_of_line(recording.lf()),
        value: basic.values[position as usize],
        flagged: basic.flagged,
    }
}

// An aggregated interval as the item of the channel at a position.
fn group_item(recording: &Recording, long: Length, group: &Group, position: u32) -> Item
    requires { position < length recording.now.numbers }
    ensures { result ≡ item_of_one_group long recording.now group.now position }
{
    item_of_length(
        long,
        recording.number(position),
        group,
        group.values[position as usize],
    )
}
