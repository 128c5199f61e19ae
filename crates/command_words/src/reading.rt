// The words that say a command.
ghost use Rattle.std.specs.Prelude.{IfOk};
ghost use Rattle.command_words.specs.Commands.{IsTask, check_task, command_view, named_task, task_of, words_view};
ghost use Rattle.command_words.specs.Values.{GivesView};

use crate::command::{Command, WordsFault};
use crate::generated::{read_emit, read_generate};
use crate::measuring::{read_measuring, read_replay};
use crate::simple::{check_command, matches_of};
use crate::values::required;
use std::alloc::Global;

/// The command that the words say. The first word is its name, and the words after it are read with clap as
/// one simple command.
///
/// # Errors
///
/// [`WordsFault::NotUnderstood`] where no command has this name, where clap does not take the words after it,
/// or where a value is outside its grammar or its range. [`WordsFault::OutOfMemory`] may come with any words.
pub fn read_words<'a>(alloc: Global, words: &'a [String]) -> Result<Command<'a>, WordsFault>
    ensures value { GivesView command_view result (task_of (words_view words.now)) }
    ensures within { IfOk result (λ command. IsTask (command_view command)) }
{
    match words.split_first() {
        Some((name, rest)) => read_named(alloc, name.as_str(), rest),
        None => Err(WordsFault::NotUnderstood),
    }
}

// The command of this name, with the words after it.
#[tactic(auto, unfolding(crate::specs::Commands::named_task))]
fn read_named<'a>(alloc: Global, name: &str, words: &'a [String]) -> Result<Command<'a>, WordsFault>
    ensures value { GivesView command_view result (named_task name.now (words_view words.now)) }
    ensures within { IfOk result (λ command. IsTask (command_view command)) }
{
    if name == "check" {
        return read_check(alloc, words);
    }
    if name == "intervals" {
        return match read_measuring(alloc, words) {
            Ok(measuring) => Ok(Command::Intervals(measuring)),
            Err(why) => Err(why),
        };
    }
    if name == "analyse" {
        return match read_measuring(alloc, words) {
            Ok(measuring) => Ok(Command::Analyse(measuring)),
            Err(why) => Err(why),
        };
    }
    if name == "replay" {
        return read_replay(alloc, words);
    }
    if name == "emit" {
        return read_emit(alloc, words);
    }
    if name == "generate" {
        return read_generate(alloc, words);
    }
    Err(WordsFault::NotUnderstood)
}

// The words of `check`.
#[tactic(auto, unfolding(crate::specs::Commands::check_task))]
fn read_check<'a>(alloc: Global, words: &'a [String]) -> Result<Command<'a>, WordsFault>
    ensures value { GivesView command_view result (check_task (words_view words.now)) }
    ensures within { IfOk result (λ command. IsTask (command_view command)) }
{
    let Ok(command) = check_command(alloc) else {
        return Err(WordsFault::OutOfMemory);
    };
    match matches_of(command, words) {
        Ok(matches) => match required(&matches, "cfg") {
            Ok(cfg) => Ok(Command::Check { cfg }),
            Err(why) => Err(why),
        },
        Err(why) => Err(why),
    }
}
