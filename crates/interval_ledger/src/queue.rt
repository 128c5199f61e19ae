// What a lane has posted.
ghost use Rattle.std.specs.Prelude.{◌≡◌, ◌<◌, [], length, slice_get, IfOk};
ghost use Rattle.interval_ledger.specs.Queue.{empty_queue, with_item};

use std::alloc::{AllocError, Global};
use std::marker::Model;

/// Posted items, in room that was made for all of them.
#[derive(Drop)]
pub(crate) struct Queue<T> {
    items: Vec<T>,
}

impl<T> Model for Queue<T> {
    ghost use Rattle.std.specs.Prelude.{vec_capacity};
    ghost use Rattle.interval_ledger.specs.Queue.{Queued};

    ghost Value = { Queued T };

    ghost view = { λ q. record { items = q.items.items; room = vec_capacity q.items } };
}

impl<T: Copy> Queue<T> {
    // Nothing yet, with room for so many.
    pub(crate) fn with_room(alloc: Global, room: usize) -> Result<Queue<T>, AllocError>
        ensures { IfOk result (λ q. q ≡ empty_queue room) }
    {
        let items = Vec::with_capacity(alloc, room)?;
        Ok(Queue { items })
    }

    // Puts an item behind the others.
    pub(crate) fn push(&mut self, item: T)
        requires { length self.old.items < self.old.room }
        ensures { self.new ≡ with_item self.old item }
    {
        self.items.push_reserved(item);
    }

    // How many were posted.
    pub(crate) fn count(&self) -> usize
        ensures { result ≡ length self.now.items }
    {
        self.items.len()
    }

    // The item at a place from 0, if it was posted.
    pub(crate) fn get(&self, k: usize) -> Option<T>
        ensures { result ≡ slice_get self.now.items k }
    {
        self.items.get(k).copied()
    }
}
