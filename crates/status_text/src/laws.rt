// The laws of this crate, each as the contract of a function that does nothing.
ghost use Rattle.status_text.specs.Refusals.{RefusesNoMemory};

/// The fault of a dat that is refused is never want of memory.
pub fn refuses_no_memory()
    ensures { RefusesNoMemory }
{}
