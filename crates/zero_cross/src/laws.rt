// Laws of the list of all boundaries, as the contracts of calls that do nothing.
ghost use Rattle.zero_cross.specs.AllBoundaries.{BoundariesAlternate, CycleBoundariesAreEven, BoundariesFollowOneAnother, BoundariesLieWithin};

/// The list begins with boundary 0; the one after each follows it, and where there is none the list ends.
pub fn boundaries_follow_one_another()
    ensures { BoundariesFollowOneAnother }
{}

/// Each boundary is below the next and below the length of the signal, and so is each cycle boundary.
pub fn boundaries_lie_within()
    ensures { BoundariesLieWithin }
{}

/// Boundaries count as rising and falling by turns.
pub fn boundaries_alternate()
    ensures { BoundariesAlternate }
{}

/// The cycle boundaries are boundaries 0, 2, 4 and so on.
pub fn cycle_boundaries_are_even()
    ensures { CycleBoundariesAreEven }
{}
