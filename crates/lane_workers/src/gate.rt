// The gate before each raise of a lane's word.

/// Called by a worker after its post and before its raise, with the word due.
pub trait Gate {
    fn pass(&self, lane: u32, word: u64);
}

/// A gate that does nothing.
pub struct OpenGate;

impl Gate for OpenGate {
    fn pass(&self, _lane: u32, _word: u64) {}
}
