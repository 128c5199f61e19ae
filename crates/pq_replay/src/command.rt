// The commands of schedules, and the words of a command.
ghost use Rattle.std.specs.Prelude.{◌≡◌, bytes_eq, find};
ghost use Rattle.pq_replay.specs.LineGrammar.{command_word};

use crate::line::Line;

// A command.
#[derive(Clone, Copy, Debug, PartialEq, Eq)]
pub(crate) enum Command {
    Take,
    Post,
    Raise,
    Step,
    Look,
    Grab,
    Read,
    Query,
    Split,
    Halt,
}

// The commands, as they are listed.
const COMMANDS: [Command; 10] = [
    Command::Take,
    Command::Post,
    Command::Raise,
    Command::Step,
    Command::Look,
    Command::Grab,
    Command::Read,
    Command::Query,
    Command::Split,
    Command::Halt,
];

impl Command {
    ghost use Rattle.std.specs.Prelude.{◌≡◌};
    ghost use Rattle.pq_replay.specs.LineGrammar.{command_read, command_word, of_one_number, of_two_numbers};

    // The command that has this word.
    #[tactic(auto, unfolding(crate::specs::LineGrammar::command_read))]
    pub(crate) fn read(word: &[u8]) -> Option<Command>
        ensures { result ≡ command_read word.now }
    {
        find_command(&COMMANDS, word)
    }

    pub(crate) fn word(self) -> &'static str
        ensures { result.now ≡ command_word self }
    {
        match self {
            Command::Take => "take",
            Command::Post => "post",
            Command::Raise => "raise",
            Command::Step => "step",
            Command::Look => "look",
            Command::Grab => "grab",
            Command::Read => "read",
            Command::Query => "query",
            Command::Split => "split",
            Command::Halt => "halt",
        }
    }

    // Its line with one number, where it wants one.
    pub(crate) fn with_one(self, number: u32) -> Option<Line>
        ensures { result ≡ of_one_number self number }
    {
        match self {
            Command::Take => Some(Line::Take { lane: number }),
            Command::Raise => Some(Line::Raise { lane: number }),
            Command::Look => Some(Line::Look { session: number }),
            Command::Grab => Some(Line::Grab { session: number }),
            Command::Read => Some(Line::Read { session: number }),
            Command::Query => Some(Line::Query { session: number }),
            Command::Split => Some(Line::Split { session: number }),
            Command::Halt => Some(Line::Halt { session: number }),
            Command::Post | Command::Step => None,
        }
    }

    // Its line with a lane and how many items it posts at most, where it wants both.
    pub(crate) fn with_two(self, lane: u32, most: u32) -> Option<Line>
        ensures { result ≡ of_two_numbers self lane most }
    {
        match self {
            Command::Post => Some(Line::Post { lane, most }),
            Command::Step => Some(Line::Step { lane, most }),
            _ => None,
        }
    }
}

// The first of the commands that has this word.
fn find_command(commands: &[Command], word: &[u8]) -> Option<Command>
    ensures { result ≡ find (λ c. bytes_eq word.now (command_word c)) commands.now }
{
    commands
        .iter()
        .copied()
        .find(|command| word == command.word().as_bytes())
}
