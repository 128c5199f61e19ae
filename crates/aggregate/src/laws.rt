// The law of this crate, as the contract of a function that does nothing.
ghost use Rattle.aggregate.specs.WholeList.{GivesGroups};

/// Over a whole list, the answers of an aggregator are the intervals of the list, of each length.
pub fn gives_groups()
    ensures { GivesGroups }
{}
