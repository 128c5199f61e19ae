// The laws of this crate, each as the contract of a function that does nothing.
ghost use Rattle.polyphase.specs.WholeList.{GivesPolyphaseEvents};

/// Over a whole list of windows, the answers of a `Poly` are the events of the list, of each kind, each
/// at the window that ends it.
pub fn gives_polyphase_events()
    ensures { GivesPolyphaseEvents }
{}
