// The kinds of event.

/// The kind of an event: a dip or a swell (IEC 61000-4-30:2015, 5.4), or an interruption (5.5).
#[derive(Clone, Copy, Debug, PartialEq, Eq)]
pub enum Kind {
    Dip,
    Swell,
    Interruption,
}
