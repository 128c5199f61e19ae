// The laws, one a function.
ghost use Rattle.pq_replay.specs.AnswerLines.{CoresFollowPhases, SchedulesAreAnswered};

/// The core goes as far along steps as the phases alone do, and leads to the same phases.
pub fn cores_follow_phases()
    ensures { CoresFollowPhases }
{}

/// A schedule that is read for the lanes of a recording is answered whole: it has an answer line for each of
/// its lines.
pub fn schedules_are_answered()
    ensures { SchedulesAreAnswered }
{}
