// What the table of a chain shows, as a law.
ghost use Rattle.query_session.specs.Shown.{ShowsCores};

/// Between any two atomic steps the table of a chain shows a core, of which the facts of every core hold.
pub fn shows_cores()
    ensures { ShowsCores }
{}
