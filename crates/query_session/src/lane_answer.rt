// What the calls of a lane's seat answer.

/// What a take gives.
#[derive(Drop)]
pub enum Taken {
    Held,
    /// The try found that word in the turn.
    Busy { word: u64 },
    /// The load of the stop word found 1.
    Halted,
}

/// What a raise or a step gives: how many items the post posted, and the word.
#[derive(Drop)]
pub enum Lane {
    /// Items are left.
    More { count: u32, word: u64 },
    /// All are posted, and the word is the number of samples.
    Done { count: u32, word: u64 },
    /// The try found that word in the turn.
    Busy { word: u64 },
    /// The load of the stop word found 1.
    Halted,
}
