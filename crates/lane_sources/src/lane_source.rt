// The items of a lane, one after another.
ghost use Rattle.std.specs.Iterator.{YieldsFirst, item_count};

use crate::lane_kind::LaneKind;
use lanes::LaneItem;
use std::marker::Model;

/// The items of a lane of a recording, in order, each measured when it is asked for: an iterator,
/// seen as the list of those that are left. It takes no memory once it is opened.
#[derive(Drop)]
pub struct LaneSource<'r> {
    pub(crate) kind: LaneKind<'r>,
}

impl<'r> Model for LaneSource<'r> {
    ghost use Rattle.std.specs.Prelude.{List};
    ghost use Rattle.lanes.specs.declared.lane_item.LaneItem.{LaneItem};
    ghost use Rattle.lane_sources.specs.LaneSource.{items_left};

    ghost Value = { List LaneItem };

    ghost view = { λ s. items_left s.kind };
}

impl<'r> Iterator for LaneSource<'r> {
    type Item = LaneItem;

    ghost next_gives = { YieldsFirst (λ rest. rest) };

    ghost remaining = { item_count (λ rest. rest) };

    fn next(&mut self) -> Option<LaneItem> {
        self.kind.next()
    }
}
