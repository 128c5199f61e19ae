// How the words and their passes are made.
ghost use Rattle.std.specs.Prelude.{◌≡◌, ◌+◌, ◌<◌, ◌≤◌, ℕ, [], IfOk, vec_len};
ghost use Rattle.progress_words.specs.PassView.{first_view};
ghost use Rattle.progress_words.specs.Words.{IsFreshLane, AreFreshLanes, IsFreshReader, lanes_of, opening_of, IsOpenedOn};

use crate::out_of_memory::OutOfMemory;
use crate::pass::{LanePass, ReadPass, Words};
use crate::shared::{MOST_LANES, Shared};
use crate::step::MakeLane;
use crate::table::{Board, Opening, Place};
use atomic_table::Table;
use std::alloc::Global;
use std::snapshot::Snapshot;

impl<V: Shared> Words<V> {
    /// All words 0 and the turn free, with the pass of each lane in order, and a reader's.
    pub fn open(
        alloc: Global,
        value: V,
    ) -> Result<(Words<V>, Vec<LanePass<V>>, ReadPass<V>), OutOfMemory>
        requires some { 1 ≤ V.lanes value }
        requires few { V.lanes value ≤ MOST_LANES }
        ensures words { IfOk result (λ t. IsOpenedOn (V.lanes value) value t.0) }
        ensures count { IfOk result (λ t. vec_len t.1 ≡ V.lanes value) }
        ensures lanes { IfOk result (λ t. AreFreshLanes t.0 value 0 t.1.items) }
        ensures reader { IfOk result (λ t. IsFreshReader t.0 value (V.lanes value) t.2) }
    {
        let count = value.lanes() as usize;
        let (words, mut reader) = first_pass(alloc, value, count)?;
        let mut passes = Vec::with_capacity(alloc, count)?;
        for lane in 0..count {
            let pass = next_pass(&words, &mut reader, lane);
            passes.push(pass)?;
        }
        Ok((words, passes, reader))
    }
}

// The pass of the first reader.
fn first_pass<V: Shared>(
    alloc: Global,
    value: V,
    count: usize,
) -> Result<(Words<V>, ReadPass<V>), OutOfMemory>
    requires { count ≤ MOST_LANES }
    ensures words { IfOk result (λ t. IsOpenedOn count value t.0) }
    ensures reader { IfOk result (λ t. IsFreshReader t.0 value 0 t.1) }
{
    let (board, seat) = lay_table(alloc, value, count)?;
    Ok((Words { board, count }, ReadPass { seat }))
}

// The pass of the next lane.
fn next_pass<V: Shared>(words: &Words<V>, reader: &mut ReadPass<V>, lane: usize) -> LanePass<V>
    requires reader { IsFreshReader words.now (opening_of words.now) lane reader.old }
    requires lane { lane < lanes_of words.now }
    ensures reader { IsFreshReader words.now (opening_of words.now) (lane + 1) reader.new }
    ensures lane { IsFreshLane words.now (opening_of words.now) lane result }
{
    let shared = &words.board.shared;
    let seat = shared.split_seat::<MakeLane>(&mut reader.seat);
    LanePass { seat, lane }
}

// The table with all words 0 and the value at home, and the first seat.
fn lay_table<V: Shared>(
    alloc: Global,
    value: V,
    count: usize,
) -> Result<(Board<V>, Place<V>), OutOfMemory>
    requires { count ≤ MOST_LANES }
    ensures words { IfOk result (λ t. t.0.shared.table_id.words ≡ count + 2) }
    ensures slots { IfOk result (λ t. t.0.shared.table_id.slots ≡ 1) }
    ensures lanes { IfOk result (λ t. t.0.shared.key.lanes ≡ count) }
    ensures value { IfOk result (λ t. t.0.shared.key.value.value ≡ value) }
    ensures mine { IfOk result (λ t. t.1.table_id ≡ t.0.shared.table_id) }
    ensures pass { IfOk result (λ t. t.1.me ≡ (first_view count V.name value, [])) }
{
    let about = Opening {
        value: Snapshot::of(&value),
        lanes: count as u64,
    };
    let words = Vec::from_elem(alloc, 0u64, count + 2)?;
    let mut slots = Vec::with_capacity(alloc, 1)?;
    slots.push(Some(value))?;
    Ok(Table::new(alloc, words.as_slice(), slots, &about)?)
}
