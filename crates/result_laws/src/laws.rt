// The laws, one a function.
ghost use Rattle.result_laws.specs.DistinctKeys.{KeysAreDistinct};
ghost use Rattle.result_laws.specs.TwelveTenMinutes.{TwoHoursHaveTwelve};

/// No two items of a result have one key.
pub fn keys_are_distinct()
    ensures { KeysAreDistinct }
{}

/// A two-hour item of a result is made of twelve ten-minute items of it, without a gap.
pub fn two_hours_have_twelve()
    ensures { TwoHoursHaveTwelve }
{}
