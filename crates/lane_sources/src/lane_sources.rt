// What opens the sources of a recording's lanes.
ghost use Rattle.std.specs.Prelude.{◌≡◌, ◌<◌, IfOk};
ghost use Rattle.lanes.specs.Lane.{lane_count, lane_items};

use crate::lane_kind::LaneKind;
use crate::lane_source::LaneSource;
use crate::spans::basic_spans;
use pq_base::Recording;
use std::alloc::{AllocError, Global};
use std::marker::Model;
use ten_twelve::Span;

/// What opens the sources of a recording's lanes: it finds the basic intervals once, for all of them.
/// Contracts see it as the recording.
#[derive(Drop)]
pub struct LaneSources<'r> {
    recording: &'r Recording,
    // The places of the basic intervals.
    spans: Vec<Span>,
}

impl<'r> Model for LaneSources<'r> {
    ghost use Rattle.pq_base.specs.Recorded.{Recorded};
    ghost use Rattle.lane_sources.specs.LaneSources.{AreSpansOf};

    ghost Value = { Recorded };

    ghost view = { λ s. s.recording.now };

    ghost invariant = { λ s. AreSpansOf s.recording.now s.spans.items };
}

impl<'r> LaneSources<'r> {
    /// What opens the sources of this recording's lanes.
    ///
    /// # Errors
    ///
    /// [`AllocError`] where there is no memory.
    pub fn new(alloc: Global, recording: &'r Recording) -> Result<LaneSources<'r>, AllocError>
        ensures { IfOk result (λ s. s ≡ recording.now) }
    {
        let spans = basic_spans(alloc, recording)?;
        Ok(LaneSources { recording, spans })
    }

    /// The recording.
    pub fn recording(&self) -> &'r Recording
        ensures { result.now ≡ self.now }
    {
        self.recording
    }

    /// All items of a lane: lane 2p is the sampler of the channel at position p, lane 2p + 1 its
    /// detector, and the last lane has the frequency readings.
    ///
    /// # Errors
    ///
    /// [`AllocError`] where there is no memory.
    pub fn open(&self, alloc: Global, lane: u32) -> Result<LaneSource<'r>, AllocError>
        requires { lane < lane_count self.now }
        ensures value { IfOk result (λ s. s ≡ lane_items self.now lane) }
    {
        let kind = LaneKind::open(alloc, self.recording, &self.spans, lane)?;
        Ok(LaneSource { kind })
    }
}
