// What basic intervals are aggregated to.
ghost use Rattle.std.specs.Prelude.{IfOk, OnOk, option_to_list, length};
ghost use Rattle.aggregate.specs.BasicOrder.{AreBasics, IsSetting};
ghost use Rattle.pq_sequence.specs.Lists.{Adds};
ghost use Rattle.pq_sequence.specs.Measured.{AddsOut, AreEmpty, AreGroupsOf, basics_seen};

use crate::basics::BasicInterval;
use aggregate::{Aggregator, Group, Out};
use pq_time::Clock;
use std::alloc::{AllocError, Global};

/// Intervals of all channels, of each length (IEC 61000-4-30:2015, 4.5).
#[derive(Drop)]
pub struct Groups {
    /// Of 150 or 180 cycles.
    pub shorts: Vec<Group>,
    /// Of ten minutes.
    pub tens: Vec<Group>,
    /// Of two hours.
    pub two_hours: Vec<Group>,
}

/// What basic intervals of so many channels are aggregated to, among `n` samples that are taken when
/// the clock says.
pub fn all_groups(
    alloc: Global,
    clock: Clock,
    n: u64,
    channels: u32,
    basics: &[BasicInterval],
) -> Result<Groups, AllocError>
    requires setting { IsSetting clock n channels }
    requires basics { AreBasics clock n channels (basics_seen channels basics.now) }
    ensures { IfOk result (AreGroupsOf clock n channels (basics_seen channels basics.now)) }
{
    let mut aggregator = Aggregator::new(clock, n, channels);
    let mut groups = Groups::new(alloc);
    for basic in basics {
        let values = &basic.values[..channels as usize];
        groups.add(aggregator.step(basic.span, basic.front, values, basic.flagged))?;
    }
    Ok(groups)
}

impl Groups {
    fn new(alloc: Global) -> Groups
        ensures { AreEmpty result }
    {
        Groups {
            shorts: Vec::new(alloc),
            tens: Vec::new(alloc),
            two_hours: Vec::new(alloc),
        }
    }

    // Adds the intervals that one basic interval completes.
    fn add(&mut self, out: Out) -> Result<(), AllocError>
        ensures { OnOk result (AddsOut self.old self.new out) }
    {
        push_some(&mut self.shorts, out.short)?;
        push_some(&mut self.tens, out.ten)?;
        push_some(&mut self.two_hours, out.two)
    }
}

fn push_some(list: &mut Vec<Group>, group: Option<Group>) -> Result<(), AllocError>
    ensures { OnOk result (Adds list.old list.new (option_to_list group)) }
{
    if let Some(group) = group {
        list.push(group)?;
    }
    Ok(())
}
