// The items of all lanes of a recording.
ghost use Rattle.std.specs.Prelude.{◌≡◌, ◌<◌, slice_get, IfOk};
ghost use Rattle.lanes.specs.Lane.{lane_count, lane_items, reach};
ghost use Rattle.pq_sequence.specs.Lists.{Gives};
ghost use Rattle.worked_ledger.specs.Measured.{GivesLanes};

use lane_sources::LaneSources;
use lanes::LaneItem;
use pq_base::Recording;
use std::alloc::{AllocError, Global};
use std::marker::Model;

/// The items of each lane of a recording, seen as the recording.
#[derive(Drop)]
pub struct Measured<'r> {
    recording: &'r Recording,
    lanes: Vec<Vec<LaneItem>>,
}

impl<'r> Model for Measured<'r> {
    ghost use Rattle.pq_base.specs.Recorded.{Recorded};
    ghost use Rattle.worked_ledger.specs.Measured.{AreLanes};

    ghost Value = { Recorded };

    ghost view = { λ m. m.recording.now };

    ghost invariant = { λ m. AreLanes m.recording.now m.lanes.items };
}

impl<'r> Measured<'r> {
    /// Measures all lanes.
    ///
    /// # Errors
    ///
    /// [`AllocError`] where there is no memory.
    pub fn of(alloc: Global, recording: &'r Recording) -> Result<Measured<'r>, AllocError>
        ensures { IfOk result (λ m. m ≡ recording.now) }
    {
        let lanes = all_lanes(alloc, recording)?;
        Ok(Measured { recording, lanes })
    }

    /// How many lanes there are.
    pub fn lanes(&self) -> u32
        ensures { result ≡ lane_count self.now }
    {
        2 * self.recording.channels() + 1
    }

    /// The item of a lane at an index, if there is one.
    pub fn item(&self, lane: u32, index: u64) -> Option<LaneItem>
        requires { lane < lane_count self.now }
        ensures { result ≡ slice_get (lane_items self.now lane) index }
    {
        self.lane(lane).get(index as usize).copied()
    }

    /// How far a lane is settled of which so many items are posted.
    #[tactic(auto, using(crate::proofs::LaneLemmas::reach_next, crate::proofs::LaneLemmas::reach_end, crate::proofs::LaneLemmas::key_fits))]
    pub fn reach(&self, lane: u32, posted: u64) -> u64
        requires { lane < lane_count self.now }
        ensures { result ≡ reach self.now lane posted }
    {
        let n = self.recording.len();
        match self.item(lane, posted) {
            Some(item) => item.key().saturating_sub(1),
            None => n,
        }
    }

    // The items of a lane.
    fn lane(&self, lane: u32) -> &[LaneItem]
        requires { lane < lane_count self.now }
        ensures { result.now ≡ lane_items self.now lane }
    {
        self.lanes[lane as usize].as_slice()
    }
}

// The items of each lane, by lane.
fn all_lanes(alloc: Global, recording: &Recording) -> Result<Vec<Vec<LaneItem>>, AllocError>
    ensures { GivesLanes result recording.now }
{
    let sources = LaneSources::new(alloc, recording)?;
    let mut lanes = Vec::new(alloc);
    for lane in 0..2 * recording.channels() + 1 {
        lanes.push(lane_list(alloc, &sources, lane)?)?;
    }
    Ok(lanes)
}

// The items of a lane.
fn lane_list(
    alloc: Global,
    sources: &LaneSources<'_>,
    lane: u32,
) -> Result<Vec<LaneItem>, AllocError>
    requires { lane < lane_count sources.now }
    ensures { Gives result (lane_items sources.now lane) }
{
    let mut items = Vec::new(alloc);
    for item in sources.open(alloc, lane)? {
        items.push(item)?;
    }
    Ok(items)
}
