// What the words are of.
ghost use Rattle.std.specs.Prelude.{◌≡◌, ℕ};

/// How many lanes a value may have.
pub const MOST_LANES: u32 = 33;

/// A value with lanes, each of which reaches so far.
pub trait Shared: Drop {
    /// The plain data that ties all passes to one value.
    type Name;

    /// How many lanes it has.
    ghost lanes: { Self → ℕ };

    /// How far each lane reaches.
    ghost reach: { Self → ℕ → ℕ };

    /// What all its passes are named after.
    ghost name: { Self → Self.Name };

    fn lanes(&self) -> u32
        ensures { result ≡ lanes self.now };
}
