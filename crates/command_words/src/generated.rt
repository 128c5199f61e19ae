// The words of the commands on a generated recording.
ghost use Rattle.std.specs.Prelude.{◌≡◌, IfOk};
ghost use Rattle.command_words.specs.Commands.{IsTask, command_view, emit_task, generate_task, words_view};
ghost use Rattle.command_words.specs.Simple.{rows_found};
ghost use Rattle.command_words.specs.Values.{Gives, GivesView, part_of, seed_of};

use crate::command::{Command, Part, WordsFault};
use crate::number::number_between;
use crate::simple::{emit_command, generate_command, matches_of};
use crate::values::required;
use clap::ArgMatches;
use std::alloc::Global;

/// The greatest seed.
pub(crate) const MOST_SEED: u64 = 18_446_744_073_709_551_615;

/// The words of `emit`.
#[tactic(auto, unfolding(crate::specs::Commands::emit_task))]
pub(crate) fn read_emit<'a>(alloc: Global, words: &'a [String]) -> Result<Command<'a>, WordsFault>
    ensures value { GivesView command_view result (emit_task (words_view words.now)) }
    ensures within { IfOk result (λ command. IsTask (command_view command)) }
{
    let Ok(command) = emit_command(alloc) else {
        return Err(WordsFault::OutOfMemory);
    };
    match matches_of(command, words) {
        Ok(matches) => {
            let part = part_of(required(&matches, "part")?)?;
            let seed = seed_of(&matches)?;
            Ok(Command::Emit { part, seed })
        }
        Err(why) => Err(why),
    }
}

/// The words of `generate`.
#[tactic(auto, unfolding(crate::specs::Commands::generate_task))]
pub(crate) fn read_generate<'a>(
    alloc: Global,
    words: &'a [String],
) -> Result<Command<'a>, WordsFault>
    ensures value { GivesView command_view result (generate_task (words_view words.now)) }
    ensures within { IfOk result (λ command. IsTask (command_view command)) }
{
    let Ok(command) = generate_command(alloc) else {
        return Err(WordsFault::OutOfMemory);
    };
    match matches_of(command, words) {
        Ok(matches) => {
            let seed = seed_of(&matches)?;
            Ok(Command::Generate { seed })
        }
        Err(why) => Err(why),
    }
}

// The file of a generated recording.
fn part_of(text: &str) -> Result<Part, WordsFault>
    ensures { result ≡ part_of text.now }
{
    if text == "cfg" {
        return Ok(Part::Cfg);
    }
    if text == "dat" {
        return Ok(Part::Dat);
    }
    Err(WordsFault::NotUnderstood)
}

// One to twenty digits, at most 2^64 - 1.
fn seed_of(matches: &ArgMatches<'_>) -> Result<u64, WordsFault>
    ensures { Gives result (seed_of (rows_found matches.now)) }
{
    let seed = required(matches, "seed")?;
    number_between(seed.as_bytes(), 20, 0, MOST_SEED)
}
