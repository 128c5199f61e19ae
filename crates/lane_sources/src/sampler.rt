// The basic values of a channel, one after another.
ghost use Rattle.std.specs.Prelude.{◌≡◌, ◌<◌, ◌≤◌, length, IfOk};
ghost use Rattle.std.specs.Iterator.{YieldsFirst, item_count};
ghost use Rattle.lane_sources.specs.LaneSources.{AreSpansOf};
ghost use Rattle.lanes.specs.Lane.{sampler_items, value_over};
ghost use Rattle.pq_sequence.specs.MeasuredRecording.{channel_count};
ghost use Rattle.pq_words.specs.Samples.{AreSamples};

use fixed_rms::rms;
use lanes::LaneItem;
use pq_base::Recording;
use std::alloc::{AllocError, Global};
use std::marker::Model;
use ten_twelve::Span;

/// The basic values of a channel, in order, each with its root in microvolts (IEC 61000-4-30:2015,
/// 5.2): an iterator, seen as the list of those that are left. Each root is taken when it is asked for.
#[derive(Drop)]
pub struct Sampler<'r> {
    samples: &'r [i64],
    // The places of the basic intervals.
    spans: Vec<Span>,
    // The index of the next one.
    index: usize,
}

impl<'r> Model for Sampler<'r> {
    ghost use Rattle.std.specs.Prelude.{List, drop};
    ghost use Rattle.lanes.specs.declared.lane_item.LaneItem.{LaneItem};
    ghost use Rattle.lane_sources.specs.Sampler.{IsSound, values_left};

    ghost Value = { List LaneItem };

    ghost view = { λ s. values_left s.samples.now s.spans.items s.index };

    ghost invariant = { λ s. IsSound s.samples.now s.spans.items };
}

impl<'r> Sampler<'r> {
    /// The basic values of the channel at a position, over the recording's basic intervals.
    ///
    /// # Errors
    ///
    /// [`AllocError`] where there is no memory.
    pub fn open(
        alloc: Global,
        recording: &'r Recording,
        spans: &[Span],
        position: u32,
    ) -> Result<Sampler<'r>, AllocError>
        requires inside { position < channel_count recording.now }
        requires spans { AreSpansOf recording.now spans.now }
        ensures { IfOk result (λ s. s ≡ sampler_items recording.now position) }
    {
        Ok(Sampler {
            samples: recording.samples(position),
            spans: Vec::from_slice(alloc, spans)?,
            index: 0,
        })
    }
}

impl<'r> Iterator for Sampler<'r> {
    type Item = LaneItem;

    ghost next_gives = { YieldsFirst (λ rest. rest) };

    ghost remaining = { item_count (λ rest. rest) };

    fn next(&mut self) -> Option<LaneItem> {
        let span = *self.spans.get(self.index)?;
        self.index += 1;
        Some(value_over(self.samples, span))
    }
}

// The basic value over a span.
fn value_over(samples: &[i64], span: Span) -> LaneItem
    requires some { span.start < span.end }
    requires inside { span.end ≤ length samples.now }
    requires samples { AreSamples samples.now }
    ensures { result ≡ value_over samples.now span }
{
    let Span { start, end } = span;
    LaneItem::Value {
        start,
        end,
        value: rms(&samples[start as usize..end as usize]),
    }
}
