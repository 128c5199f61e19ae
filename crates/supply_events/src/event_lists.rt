// The events of each kind, as they are found.
ghost use Rattle.std.specs.Prelude.{◌≡◌, ◌++◌, IfOk, OnOk, option_to_list};
ghost use Rattle.supply_events.specs.EventLists.{AddsAnswers, AreEmpty, kind_by_kind};

use event_detect::Event;
use std::alloc::{AllocError, Global};

/// The events of each kind.
#[derive(Drop)]
pub struct EventLists {
    dips: Vec<Event>,
    swells: Vec<Event>,
    interruptions: Vec<Event>,
}

impl EventLists {
    pub fn new(alloc: Global) -> EventLists
        ensures { AreEmpty result }
    {
        EventLists {
            dips: Vec::new(alloc),
            swells: Vec::new(alloc),
            interruptions: Vec::new(alloc),
        }
    }

    /// Adds one answer of each kind.
    pub fn push_answers(&mut self, answers: [Option<Event>; 3]) -> Result<(), AllocError>
        ensures { OnOk result (AddsAnswers self.old self.new answers) }
    {
        let [dip, swell, interruption] = answers;
        push_some(&mut self.dips, dip)?;
        push_some(&mut self.swells, swell)?;
        push_some(&mut self.interruptions, interruption)
    }

    /// The events of all kinds, kind by kind.
    pub fn joined(self) -> Result<Vec<Event>, AllocError>
        ensures { IfOk result (λ found. found.items ≡ kind_by_kind self) }
    {
        let mut all = self.dips;
        all.extend_from_slice(&self.swells)?;
        all.extend_from_slice(&self.interruptions)?;
        Ok(all)
    }
}

fn push_some(list: &mut Vec<Event>, event: Option<Event>) -> Result<(), AllocError>
    ensures { OnOk result (list.new.items ≡ list.old.items ++ option_to_list event) }
{
    if let Some(event) = event {
        list.push(event)?;
    }
    Ok(())
}
