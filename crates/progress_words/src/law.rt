// What the rule of the words tells of the table, as a law.
ghost use Rattle.progress_words.specs.Shown.{ShowsWords};

use crate::shared::Shared;

/// Between any two atomic steps, whatever was read of a lane is at most its word, and the word at most
/// the value's reach. The turn is free exactly where no pass holds, and no two hold. The stop word is 0
/// exactly where no reader wrote it.
pub fn shows_words<V: Shared>()
    ensures { ShowsWords V.reach V.name }
{}
