// The kinds of atomic steps, each with what it tells its pass.
use crate::pass_view::PassView;
use crate::shared::Shared;
use atomic_table::{Play, Split};

pub(crate) struct Load;

impl<V, N> Play<Option<V>, PassView<V, N>> for Load {
    ghost use Rattle.progress_words.specs.Step.{LoadsWord};

    ghost then = { LoadsWord };
}

pub(crate) struct Raise;

impl<V, N> Play<Option<V>, PassView<V, N>> for Raise {
    ghost use Rattle.progress_words.specs.Step.{RaisesWord};

    ghost then = { RaisesWord };
}

pub(crate) struct Try;

impl<V: Shared> Play<Option<V>, PassView<V, V::Name>> for Try {
    ghost use Rattle.progress_words.specs.Step.{TriesTurn};

    ghost then = { TriesTurn V.reach V.name };
}

pub(crate) struct Give;

impl<V: Shared> Play<Option<V>, PassView<V, V::Name>> for Give {
    ghost use Rattle.progress_words.specs.Step.{GivesTurn};

    ghost then = { GivesTurn V.reach };
}

pub(crate) struct WriteStop;

impl<V, N> Play<Option<V>, PassView<V, N>> for WriteStop {
    ghost use Rattle.progress_words.specs.Step.{WritesStop};

    ghost then = { WritesStop };
}

pub(crate) struct LoadStop;

impl<V, N> Play<Option<V>, PassView<V, N>> for LoadStop {
    ghost use Rattle.progress_words.specs.Step.{LoadsStop};

    ghost then = { LoadsStop };
}

// A reader's pass is split.
pub(crate) struct SplitReader;

impl<V, N> Split<PassView<V, N>> for SplitReader {
    ghost use Rattle.progress_words.specs.PassView.{after_split, split_view};

    ghost left = { after_split };

    ghost right = { split_view };
}

// The pass of the next lane is made.
pub(crate) struct MakeLane;

impl<V: Shared> Split<PassView<V, V::Name>> for MakeLane {
    ghost use Rattle.progress_words.specs.PassView.{after_lane, next_lane_view};

    ghost left = { after_lane };

    ghost right = { next_lane_view V.reach };
}
