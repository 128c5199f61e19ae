// Advancing: the mark moves to a place up to which everything is merged.
ghost use Rattle.std.specs.Prelude.{◌≡◌, ◌≢◌, ◌<◌, max, OnOk, OnErr};
ghost use Rattle.interval_ledger.specs.Merging.{DoesItems, HasMerged, HasPosted, HoldsCut, IsMerging, IsWithinReach, KeepsPosted};

use crate::merging::Merging;
use crate::steps::Steps;
use std::alloc::AllocError;
use std::sync::ledger::Ledger;

impl Merging {
    // Settles the result up to a place within the reaches: what ends by it is released, each item with its
    // final flag. One step, one for each window, basic interval and reading that is merged, and one for each
    // item that is released. Where memory is short, the mark stays, and so does all that is posted.
    pub(crate) fn advance<L: Ledger>(
        &mut self,
        w: u64,
        steps: &mut Steps<L>,
    ) -> Result<(), AllocError>
        requires holds { HoldsCut self.old }
        requires within { IsWithinReach self.old w }
        ensures cut { HoldsCut self.new }
        ensures same { KeepsPosted self.old self.new }
        ensures ticks { DoesItems 1 steps.old steps.new self.old self.new }
        ensures value { OnOk result (self.new.mark ≡ max self.old.mark w) }
        ensures err { OnErr result (self.new.mark ≡ self.old.mark) }
    {
        steps.tick();
        if self.mark < w {
            self.settle(w, steps)
        } else {
            Ok(())
        }
    }

    // The same for a place past the mark.
    fn settle<L: Ledger>(&mut self, w: u64, steps: &mut Steps<L>) -> Result<(), AllocError>
        requires holds { HoldsCut self.old }
        requires within { IsWithinReach self.old w }
        requires later { self.old.mark < w }
        ensures cut { HoldsCut self.new }
        ensures same { KeepsPosted self.old self.new }
        ensures ticks { DoesItems 0 steps.old steps.new self.old self.new }
        ensures value { OnOk result (self.new.mark ≡ w) }
        ensures err { OnErr result (self.new.mark ≡ self.old.mark) }
    {
        self.merge_until(w, steps)?;
        self.move_mark(w, steps)
    }

    // Moves the mark to a place up to which everything is merged.
    fn move_mark<L: Ledger>(&mut self, w: u64, steps: &mut Steps<L>) -> Result<(), AllocError>
        requires posted { HasPosted self.old }
        requires at { IsMerging self.old }
        requires merged { HasMerged self.old w }
        requires later { self.old.mark < w }
        ensures cut { HoldsCut self.new }
        ensures same { KeepsPosted self.old self.new }
        ensures ticks { DoesItems 0 steps.old steps.new self.old self.new }
        ensures value { OnOk result (self.new.mark ≡ w) }
        ensures err { OnErr result (self.new.mark ≡ self.old.mark) }
    {
        if w == self.samples {
            self.finish(w, steps)
        } else {
            self.release(w, steps);
            Ok(())
        }
    }

    // Moves the mark to a place below the end.
    fn release<L: Ledger>(&mut self, w: u64, steps: &mut Steps<L>)
        requires posted { HasPosted self.old }
        requires at { IsMerging self.old }
        requires merged { HasMerged self.old w }
        requires later { self.old.mark < w }
        requires other { w ≢ self.old.samples }
        ensures cut { HoldsCut self.new }
        ensures same { KeepsPosted self.old self.new }
        ensures ticks { DoesItems 0 steps.old steps.new self.old self.new }
        ensures value { self.new.mark ≡ w }
    {
        self.known.release(w, steps);
        self.mark = w;
    }

    // Moves the mark to the end.
    fn finish<L: Ledger>(&mut self, n: u64, steps: &mut Steps<L>) -> Result<(), AllocError>
        requires posted { HasPosted self.old }
        requires at { IsMerging self.old }
        requires merged { HasMerged self.old n }
        requires end { n ≡ self.old.samples }
        ensures cut { HoldsCut self.new }
        ensures same { KeepsPosted self.old self.new }
        ensures ticks { DoesItems 0 steps.old steps.new self.old self.new }
        ensures value { OnOk result (self.new.mark ≡ n) }
        ensures err { OnErr result (self.new.mark ≡ self.old.mark) }
    {
        self.known.finish(n, steps)?;
        self.mark = n;
        Ok(())
    }
}
