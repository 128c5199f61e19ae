// The laws, one a function.
ghost use Rattle.core_laws.specs.OwnLoad.{RecordedWithheldByOwnLoads, WithheldByOwnLoads};
ghost use Rattle.core_laws.specs.RecordedCore.{RecordedCoresAreSound, RecordedReadsAreRight, RecordedSessionsAreGiven, RecordingsAreMeasured};

/// Of every recording the keys of each lane rise up to the number of samples, and so do the ends of the
/// items; so the laws of cores are laws of every recording.
pub fn recordings_are_measured()
    ensures measured { RecordingsAreMeasured }
    ensures given { RecordedSessionsAreGiven }
    ensures sound { RecordedCoresAreSound }
    ensures reads { RecordedReadsAreRight }
{}

/// By every list of steps a withheld answer has a word that the session's own load gave after its last load
/// of the stop word, and that lies before the end of the item at its cursor.
pub fn withheld_by_own_loads()
    ensures measured { WithheldByOwnLoads }
    ensures recorded { RecordedWithheldByOwnLoads }
{}
