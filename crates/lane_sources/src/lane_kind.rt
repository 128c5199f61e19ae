// The three kinds of lanes.
ghost use Rattle.std.specs.Prelude.{◌≡◌, ◌<◌, IfOk};
ghost use Rattle.std.specs.Iterator.{YieldsFirst};
ghost use Rattle.lanes.specs.Lane.{lane_count, lane_items, recorded_readings, windows_at};
ghost use Rattle.lane_sources.specs.LaneSource.{items_left};
ghost use Rattle.lane_sources.specs.LaneSources.{AreSpansOf};
ghost use Rattle.pq_sequence.specs.MeasuredRecording.{channel_count};

use crate::sampler::Sampler;
use freq10s::Readings;
use half_cycle::Windows;
use lanes::LaneItem;
use pq_base::Recording;
use pq_sequence::{clock_of, recorded_rule};
use std::alloc::{AllocError, Global};
use ten_twelve::Span;

/// What gives the items of a lane.
#[derive(Drop)]
pub enum LaneKind<'r> {
    /// The basic values of a channel.
    Sampler(Sampler<'r>),
    /// The half-cycle windows of a channel.
    Detector(Windows<'r>),
    /// The frequency readings.
    Frequency(Readings<'r>),
}

impl<'r> LaneKind<'r> {
    /// What gives all items of a lane, of a recording with these basic intervals.
    ///
    /// # Errors
    ///
    /// [`AllocError`] where there is no memory.
    #[tactic(auto, using(crate::proofs::LaneLemmas::frequency_at, crate::proofs::LaneLemmas::sampler_at, crate::proofs::LaneLemmas::detector_at))]
    pub fn open(
        alloc: Global,
        recording: &'r Recording,
        spans: &[Span],
        lane: u32,
    ) -> Result<LaneKind<'r>, AllocError>
        requires inside { lane < lane_count recording.now }
        requires spans { AreSpansOf recording.now spans.now }
        ensures { IfOk result (λ k. items_left k ≡ lane_items recording.now lane) }
    {
        if lane == 2 * recording.channels() {
            Ok(LaneKind::Frequency(readings(recording)))
        } else if lane % 2 == 0 {
            Ok(LaneKind::Sampler(Sampler::open(alloc, recording, spans, lane / 2)?))
        } else {
            Ok(LaneKind::Detector(windows(recording, lane / 2)))
        }
    }

    /// The first of the items that are left, which it takes out.
    pub fn next(&mut self) -> Option<LaneItem>
        ensures { YieldsFirst items_left self.old result self.new }
    {
        match self {
            LaneKind::Sampler(sampler) => sampler.next(),
            LaneKind::Detector(windows) => windows.next().map(LaneItem::Window),
            LaneKind::Frequency(readings) => readings.next().map(LaneItem::Reading),
        }
    }
}

// The windows of the channel at a position.
fn windows(recording: &Recording, position: u32) -> Windows<'_>
    requires { position < channel_count recording.now }
    ensures { result ≡ windows_at recording.now position }
{
    Windows::new(recording.samples(position), recorded_rule(recording))
}

// The frequency readings of a recording.
fn readings(recording: &Recording) -> Readings<'_>
    ensures { result ≡ recorded_readings recording.now }
{
    let samples = recording.samples(recording.reference());
    Readings::new(samples, recorded_rule(recording), clock_of(recording))
}
