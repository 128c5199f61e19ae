// The core, driven by lines.
use crate::reply::Reply;
use chain_core::{Answer, Machine, Measurement, Step, least, least_lane};
use pq_items::Item;
use pq_replay::Line;
use std::alloc::{AllocError, Global};

/// The core over a measurement of so many lanes, and the items of its result.
#[derive(Drop)]
pub struct CoreDriver<'a> {
    machine: Machine,
    measurement: &'a Measurement,
    items: &'a [Item],
    lanes: u32,
}

impl<'a> CoreDriver<'a> {
    /// The core at the start.
    ///
    /// # Errors
    ///
    /// [`AllocError`] where there is no memory.
    pub fn new(
        alloc: Global,
        measurement: &'a Measurement,
        items: &'a [Item],
        lanes: u32,
    ) -> Result<CoreDriver<'a>, AllocError> {
        let machine = Machine::new(alloc, lanes as usize)?;
        Ok(CoreDriver {
            machine,
            measurement,
            items,
            lanes,
        })
    }

    /// Takes the steps of a line as far as they go.
    ///
    /// # Errors
    ///
    /// [`AllocError`] where there is no memory.
    pub fn run(&mut self, alloc: Global, line: Line) -> Result<Reply, AllocError> {
        match line {
            Line::Take { lane } => self.take(alloc, Step::Take { lane }),
            Line::Post { lane, most } => self.take(alloc, Step::Post { lane, most }),
            Line::Raise { lane } => self.take(alloc, Step::Raise { lane }),
            Line::Step { lane, most } => self.step(alloc, lane, most),
            Line::Look { session } => self.look(alloc, session),
            Line::Grab { session } => self.take(alloc, Step::Grab { session }),
            Line::Read { session } => self.take(alloc, Step::Read { session }),
            Line::Query { session } => self.query(alloc, session),
            Line::Split { session } => self.take(alloc, Step::Split { session }),
            Line::Halt { session } => self.take(alloc, Step::Halt { session }),
        }
    }

    // Take, post, raise.
    fn step(&mut self, alloc: Global, lane: u32, most: u32) -> Result<Reply, AllocError> {
        let taken = self.take(alloc, Step::Take { lane })?;
        if taken != Reply::Held {
            return Ok(taken);
        }
        let posted = self.take(alloc, Step::Post { lane, most })?;
        let raised = self.take(alloc, Step::Raise { lane })?;
        match (posted, raised) {
            (Reply::Posted(count), Reply::Raised(word, done)) => {
                Ok(Reply::Stepped(count, word, done))
            }
            _ => Ok(Reply::NotAllowed),
        }
    }

    // A load of the stop word and, unless it found 1, one of each lane's word.
    fn look(&mut self, alloc: Global, session: u32) -> Result<Reply, AllocError> {
        let running = self.take(alloc, Step::LoadStop { session })?;
        if running != Reply::Running {
            return Ok(running);
        }
        let mut words = Vec::new(alloc);
        for lane in 0..self.lanes {
            if let Reply::Loaded(word) = self.take(alloc, Step::Load { session, lane })? {
                words.push(word)?;
            }
        }
        Ok(Reply::Seen(least_lane(&words) as u64, least(&words)))
    }

    // Look, grab, read.
    fn query(&mut self, alloc: Global, session: u32) -> Result<Reply, AllocError> {
        let seen = self.look(alloc, session)?;
        if !matches!(seen, Reply::Seen(..)) {
            return Ok(seen);
        }
        let grabbed = self.take(alloc, Step::Grab { session })?;
        if grabbed != Reply::Held {
            return Ok(grabbed);
        }
        self.take(alloc, Step::Read { session })
    }

    // One step.
    fn take(&mut self, alloc: Global, step: Step) -> Result<Reply, AllocError> {
        match self.machine.step(self.measurement, step, alloc)? {
            Some(answer) => Ok(reply(self.items, &answer)),
            None => Ok(Reply::NotAllowed),
        }
    }
}

// The reply of an answer.
fn reply(items: &[Item], answer: &Answer) -> Reply {
    match *answer {
        Answer::Held => Reply::Held,
        Answer::Busy { word } => Reply::Busy(word),
        Answer::Halted => Reply::Halted,
        Answer::Posted { count } => Reply::Posted(count),
        Answer::Raised { word, done } => Reply::Raised(word, done),
        Answer::Running => Reply::Running,
        Answer::Loaded { word } => Reply::Loaded(word),
        Answer::Item(ref item) => Reply::item(items, item),
        Answer::Withheld { lane, word } => Reply::Withheld(lane, word),
        Answer::End => Reply::End,
        Answer::Split { session } => Reply::Split(u64::from(session)),
        Answer::Stopped => Reply::Stopped,
    }
}
