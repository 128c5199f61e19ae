// The laws of this crate, each as the contract of a function that does nothing.
ghost use Rattle.pq_time.specs.Printed.{ShowsMoments};
ghost use Rattle.pq_time.specs.Time.{TellsPlaces};

/// The date and the time that are printed of a moment are the ones that a clock in UTC shows: the date of
/// its day number and the time of so many nanoseconds since midnight, and no others.
pub fn shows_moments()
    ensures { ShowsMoments }
{}

/// A place that is taken at a moment or after it, while the one before it is not, is the moment's place.
pub fn places_by_neighbours()
    ensures { TellsPlaces }
{}
