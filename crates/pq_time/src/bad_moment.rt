// Why a date and a time are no moment.

/// The field that is not in its grammar; the date is judged first.
#[derive(Clone, Copy, Debug, PartialEq, Eq)]
pub enum BadMoment {
    /// The date.
    Date,
    /// The time, where the date is good.
    Time,
}
