// What the lanes of a channel have posted.
ghost use Rattle.std.specs.Prelude.{◌≡◌, ◌<◌, ◌≤◌, length, slice_get, IfOk};
ghost use Rattle.interval_ledger.specs.Channel.{empty_channel, first_start, with_merged, with_value, with_window};

use crate::queue::Queue;
use event_detect::Window;
use std::alloc::{AllocError, Global};
use std::marker::Model;

/// The value of a channel over the span of a basic interval.
#[derive(Clone, Copy)]
pub(crate) struct SpanValue {
    pub(crate) start: u64,
    pub(crate) end: u64,
    pub(crate) value: u64,
}

/// The values that a channel's sampler posted and the windows that its detector posted, and how many of the
/// windows are merged.
#[derive(Drop)]
pub(crate) struct Channel {
    values: Queue<SpanValue>,
    windows: Queue<Window>,
    merged: usize,
}

impl Model for Channel {
    ghost use Rattle.std.specs.Prelude.{◌≤◌, length};
    ghost use Rattle.interval_ledger.specs.Channel.{ChannelView};

    ghost Value = { ChannelView };

    ghost view = { λ c. record { values = c.values; windows = c.windows; merged = c.merged } };

    ghost invariant = { λ c. c.merged ≤ length c.windows.items };
}

impl Channel {
    // Nothing yet, with room for so many values and windows.
    pub(crate) fn with_room(
        alloc: Global,
        values: usize,
        windows: usize,
    ) -> Result<Channel, AllocError>
        ensures { IfOk result (λ c. c ≡ empty_channel values windows) }
    {
        let values = Queue::with_room(alloc, values)?;
        let windows = Queue::with_room(alloc, windows)?;
        Ok(Channel {
            values,
            windows,
            merged: 0,
        })
    }

    // Puts a value behind the others.
    pub(crate) fn push_value(&mut self, value: SpanValue)
        requires { length self.old.values.items < self.old.values.room }
        ensures { self.new ≡ with_value self.old value }
    {
        self.values.push(value);
    }

    // Puts a window behind the others.
    pub(crate) fn push_window(&mut self, window: Window)
        requires { length self.old.windows.items < self.old.windows.room }
        ensures { self.new ≡ with_window self.old window }
    {
        self.windows.push(window);
    }

    // The value at a place from 0, if it was posted.
    pub(crate) fn value(&self, k: usize) -> Option<SpanValue>
        ensures { result ≡ slice_get self.now.values.items k }
    {
        self.values.get(k)
    }

    // How many values were posted, and how many windows.
    pub(crate) fn values(&self) -> usize
        ensures { result ≡ length self.now.values.items }
    {
        self.values.count()
    }

    pub(crate) fn windows(&self) -> usize
        ensures { result ≡ length self.now.windows.items }
    {
        self.windows.count()
    }

    // The first window that is not merged, if it was posted.
    pub(crate) fn first_window(&self) -> Option<Window>
        ensures { result ≡ slice_get self.now.windows.items self.now.merged }
    {
        self.windows.get(self.merged)
    }

    // Where it begins; the greatest number where there is none.
    pub(crate) fn first_start(&self) -> u64
        ensures { result ≡ first_start self.now }
    {
        match self.first_window() {
            Some(window) => window.start,
            None => u64::MAX,
        }
    }

    // Counts it as merged.
    pub(crate) fn take_window(&mut self)
        requires { self.old.merged < length self.old.windows.items }
        ensures { self.new ≡ with_merged self.old }
    {
        if self.merged < self.windows.count() {
            self.merged += 1;
        }
    }
}
