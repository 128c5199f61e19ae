// 150/180-cycle intervals, basic interval by basic interval.
ghost use Rattle.std.specs.Prelude.{◌≡◌, ◌∷◌, ◌++◌, ◌≤◌, ◌||◌, [], drop, length, map, not, take};
ghost use Rattle.std.specs.List.{list_any};
ghost use Rattle.aggregate.specs.BasicOrder.{AreQuiet, IsChannelCount, basic_of};
ghost use Rattle.aggregate.specs.ShortSums.{AreRecent, Completes, HasSeen, SeesMore, completed_by, recent_view, CompletesOver};
ghost use Rattle.aggregate.specs.Sum.{HasSummed, part_of};

use crate::Group;
use crate::sum::Sum;
use pq_words::MOST_SELECTED;
use std::marker::Model;
use ten_twelve::Span;

// Room for the values of the most channels.
const SLOTS: usize = MOST_SELECTED as usize;

// How many basic intervals a run of fifteen has before its last.
const BEFORE_LAST: usize = 14;

// A basic interval, and whether a run of fifteen begins at it. Values past the channels are 0.
#[derive(Clone, Copy)]
pub(crate) struct Recent {
    pub(crate) begins: bool,
    pub(crate) span: Span,
    pub(crate) values: [u64; SLOTS],
    pub(crate) flagged: bool,
}

// The fourteen latest basic intervals, the earliest first. A run of fifteen is completed where one began at
// the earliest, over how many fronts it may run.
#[derive(Drop)]
pub(crate) struct ShortSums {
    channels: u32,
    recent: [Recent; BEFORE_LAST],
}

impl Model for ShortSums {
    ghost use Rattle.std.specs.Prelude.{map};
    ghost use Rattle.aggregate.specs.ShortSums.{AreRecent, ShortView, recent_view};

    ghost Value = { ShortView };

    ghost view = { λ s. record {
      channels = s.channels;
      recent = map (recent_view s.channels) s.recent;
    } };

    ghost invariant = { λ s. AreRecent s.channels s.recent };
}

impl ShortSums {
    // The machine for so many channels, which has seen nothing.
    pub(crate) fn new(channels: u32) -> ShortSums
        requires { IsChannelCount channels }
        ensures value { HasSeen result [] }
        ensures channels { result.channels ≡ channels }
    {
        ShortSums {
            channels,
            recent: [Recent {
                begins: false,
                span: Span { start: 0, end: 0 },
                values: [0; SLOTS],
                flagged: false,
            }; BEFORE_LAST],
        }
    }

    // Feeds the next basic interval, and gives the 150/180-cycle interval that it completes.
    pub(crate) fn step(
        &mut self,
        span: Span,
        front: bool,
        values: &[u64],
        flagged: bool,
    ) -> Option<Group>
        requires long { length values.now ≡ self.old.channels }
        requires quiet { AreQuiet values.now }
        ensures value { Completes self.old (basic_of front span values.now flagged) result }
        ensures seen { SeesMore self.old self.new (basic_of front span values.now flagged) }
        ensures same { self.new.channels ≡ self.old.channels }
    {
        let completed = completed(&self.recent, self.channels, span, values, flagged);
        let next = Recent {
            begins: begins_next(&self.recent, front),
            span,
            values: padded(values),
            flagged,
        };
        push(&mut self.recent, next);
        completed
    }
}

// Whether a run begins with the next basic interval: at a front, or where none lacks basic intervals.
fn begins_next(recent: &[Recent; BEFORE_LAST], front: bool) -> bool
    ensures { result ≡ (front || not (list_any (λ r. r.begins) recent.now)) }
{
    front || !has_begun(recent)
}

// Whether a run that began lacks basic intervals.
fn has_begun(recent: &[Recent; BEFORE_LAST]) -> bool
    ensures { result ≡ list_any (λ r. r.begins) recent.now }
{
    recent.iter().any(|basic| basic.begins)
}

// Puts the next basic interval behind the others, in place of the earliest.
fn push(recent: &mut [Recent; BEFORE_LAST], next: Recent)
    ensures { recent.new ≡ drop 1 recent.old ++ next ∷ [] }
{
    recent[0] = next;
    recent.rotate_left(1);
}

// The interval of the latest and one more, where a run began at the earliest of them.
fn completed(
    recent: &[Recent; BEFORE_LAST],
    channels: u32,
    span: Span,
    values: &[u64],
    flagged: bool,
) -> Option<Group>
    requires recent { AreRecent channels recent.now }
    requires long { length values.now ≡ channels }
    requires quiet { AreQuiet values.now }
    ensures { CompletesOver channels recent.now (part_of span values.now flagged) result }
{
    if !recent[0].begins {
        return None;
    }
    let mut sum = sum_of(recent, channels);
    sum.add(span, values, flagged);
    Some(sum.group(None, channels))
}

// The sum of basic intervals that are kept.
fn sum_of(recent: &[Recent; BEFORE_LAST], channels: u32) -> Sum
    requires { AreRecent channels recent.now }
    ensures value { HasSummed result (map (λ r. (recent_view channels r).part) recent.now) }
    ensures count { result.count ≡ 14 }
{
    let mut sum = Sum::new();
    for basic in recent {
        sum.add(
            basic.span,
            &basic.values[..channels as usize],
            basic.flagged,
        );
    }
    sum
}

// The values of the channels, and 0 past them.
fn padded(values: &[u64]) -> [u64; SLOTS]
    requires few { length values.now ≤ MOST_SELECTED }
    requires quiet { AreQuiet values.now }
    ensures value { take (length values.now) result ≡ values.now }
    ensures quiet { AreQuiet result }
{
    let mut padded = [0; SLOTS];
    for (channel, value) in values.iter().enumerate() {
        padded[channel] = *value;
    }
    padded
}
