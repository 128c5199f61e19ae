// The table of the words and the slot, and its rule.
// Word k is that of lane k. Behind the lanes' words stand the turn word and the stop word.
// The one slot holds the value, or none while the value is out.
use crate::pass_view::PassView;
use crate::shared::Shared;
use atomic_table::{Seat, Table, TableRule};
use std::alloc::Global;
use std::snapshot::Snapshot;

/// What the table is told when it is made.
#[derive(Drop)]
pub struct Opening<V> {
    /// The value at opening.
    pub value: Snapshot<V>,
    pub lanes: u64,
}

/// The rule of the words.
pub struct RuleOfWords;

impl<V: Shared> TableRule<Option<V>, PassView<V, V::Name>, Opening<V>> for RuleOfWords {
    ghost use Rattle.progress_words.specs.Rule.{MeetsRule};
    ghost use Rattle.progress_words.specs.PassView.{first_view};

    ghost holds = { λ key. MeetsRule key.lanes V.reach V.name key.value.value };

    ghost first = { λ key. first_view key.lanes V.name key.value.value };
}

pub(crate) type Board<V> = Table<
    Option<V>,
    PassView<V, <V as Shared>::Name>,
    Opening<V>,
    RuleOfWords,
    Global,
>;

pub(crate) type Place<V> = Seat<Option<V>, PassView<V, <V as Shared>::Name>>;
