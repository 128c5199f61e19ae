// What the program writes to.

/// A sink for the output, and one for the line that says why it isn't whole.
#[derive(Drop)]
pub struct Streams<O, E> {
    pub out: O,
    pub err: E,
}
