// The laws, one a function.
ghost use Rattle.locality_law.specs.Locality.{Locality};
ghost use Rattle.locality_law.specs.Posted.{PostedCut, PostedSettle};

/// Recordings whose lanes agree up to a place have one cut there: what is released up to a place depends on
/// nothing that is posted later.
pub fn lanes_settle_the_cut()
    ensures { Locality }
{}

/// Up to a place within the reach of a lane's posted items, these are all that the lane has.
pub fn posted_items_settle()
    ensures { PostedSettle }
{}

/// So the posted items alone tell the cut at each place within the reaches of all lanes.
pub fn posted_items_settle_the_cut()
    ensures { PostedCut }
{}
