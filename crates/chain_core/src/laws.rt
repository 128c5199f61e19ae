// The laws, one a function.
ghost use Rattle.chain_core.specs.GivenItems.{SessionsAreGivenTheResult};
ghost use Rattle.chain_core.specs.SoundCore.{CoresAreSound, ReadsAreRight};

/// By every list of steps each session is given the items of the result from its cursor on, in order, none
/// changed or repeated.
pub fn sessions_are_given_the_result()
    ensures { SessionsAreGivenTheResult }
{}

/// In every core that events reach each word is at most its lane's reach, each last word read is at most the
/// word, and the mark is at most every lane's reach.
pub fn cores_are_sound()
    ensures { CoresAreSound }
{}

/// In every core that events reach a read gives the item at the cursor, is withheld by a word before that
/// item's end, or finds the end where every item was given.
pub fn reads_are_right()
    ensures { ReadsAreRight }
{}
