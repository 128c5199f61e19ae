//! One line of a schedule.
use crate::command::Command;

/// A command and its numbers.
#[derive(Clone, Copy, Debug, PartialEq, Eq)]
pub enum Line {
    /// A lane takes the turn.
    Take { lane: u32 },
    /// A lane posts its next items, at most so many.
    Post { lane: u32, most: u32 },
    /// A lane raises its word.
    Raise { lane: u32 },
    /// A lane takes the turn, posts and raises its word.
    Step { lane: u32, most: u32 },
    /// A session loads the stop word and each lane's word.
    Look { session: u32 },
    /// A session takes the turn.
    Grab { session: u32 },
    /// A session reads its next item.
    Read { session: u32 },
    /// A session looks, grabs and reads.
    Query { session: u32 },
    /// A session makes another of its kind.
    Split { session: u32 },
    /// A session halts the work.
    Halt { session: u32 },
}

impl Line {
    ghost use Rattle.std.specs.Prelude.{◌≡◌};
    ghost use Rattle.pq_replay.specs.AnswerLines.{command_of, number_of};

    pub(crate) fn command(self) -> Command
        ensures { result ≡ command_of self }
    {
        match self {
            Line::Take { .. } => Command::Take,
            Line::Post { .. } => Command::Post,
            Line::Raise { .. } => Command::Raise,
            Line::Step { .. } => Command::Step,
            Line::Look { .. } => Command::Look,
            Line::Grab { .. } => Command::Grab,
            Line::Read { .. } => Command::Read,
            Line::Query { .. } => Command::Query,
            Line::Split { .. } => Command::Split,
            Line::Halt { .. } => Command::Halt,
        }
    }

    // Its lane or session.
    pub(crate) fn number(self) -> u32
        ensures { result ≡ number_of self }
    {
        match self {
            Line::Take { lane } => lane,
            Line::Post { lane, .. } => lane,
            Line::Raise { lane } => lane,
            Line::Step { lane, .. } => lane,
            Line::Look { session } => session,
            Line::Grab { session } => session,
            Line::Read { session } => session,
            Line::Query { session } => session,
            Line::Split { session } => session,
            Line::Halt { session } => session,
        }
    }
}
