// The words of the commands on a recording.
ghost use Rattle.std.specs.Prelude.{IfOk};
ghost use Rattle.command_words.specs.Commands.{IsTask, command_view, measured, measurement_of, measuring_view, replay_task, words_view};
ghost use Rattle.command_words.specs.Simple.{rows_found};
ghost use Rattle.command_words.specs.Values.{GivesView};
ghost use Rattle.event_detect.specs.Threshold.{IsInRange};

use crate::channels::{optional_channel, optional_channels};
use crate::command::{Command, Measuring, WordsFault};
use crate::simple::{matches_of, measuring_command, replay_command};
use crate::thresholds::settings_of;
use crate::values::{required, value_of};
use clap::ArgMatches;
use std::alloc::Global;

/// What the words after the command's name say of a measurement.
pub(crate) fn read_measuring<'a>(
    alloc: Global,
    words: &'a [String],
) -> Result<Measuring<'a>, WordsFault>
    ensures value { GivesView measuring_view result (measurement_of (words_view words.now)) }
    ensures within { IfOk result (λ measuring. IsInRange measuring.settings) }
{
    let Ok(command) = measuring_command(alloc) else {
        return Err(WordsFault::OutOfMemory);
    };
    match matches_of(command, words) {
        Ok(matches) => measuring_of(alloc, &matches),
        Err(why) => Err(why),
    }
}

/// The words of `replay`: those of a measurement, and a schedule.
#[tactic(auto, unfolding(crate::specs::Commands::replay_task))]
pub(crate) fn read_replay<'a>(alloc: Global, words: &'a [String]) -> Result<Command<'a>, WordsFault>
    ensures value { GivesView command_view result (replay_task (words_view words.now)) }
    ensures within { IfOk result (λ command. IsTask (command_view command)) }
{
    let Ok(command) = replay_command(alloc) else {
        return Err(WordsFault::OutOfMemory);
    };
    match matches_of(command, words) {
        Ok(matches) => {
            let measuring = measuring_of(alloc, &matches)?;
            let schedule = required(&matches, "schedule")?;
            Ok(Command::Replay {
                measuring,
                schedule,
            })
        }
        Err(why) => Err(why),
    }
}

// What the options and the positionals say.
#[tactic(auto, unfolding(crate::specs::Commands::measured))]
fn measuring_of<'a>(alloc: Global, matches: &ArgMatches<'a>) -> Result<Measuring<'a>, WordsFault>
    ensures value { GivesView measuring_view result (measured (rows_found matches.now)) }
    ensures within { IfOk result (λ measuring. IsInRange measuring.settings) }
{
    let settings = settings_of(matches)?;
    let channels = optional_channels(alloc, value_of(matches, "channels"))?;
    let reference = optional_channel(value_of(matches, "reference"))?;
    let cfg = required(matches, "cfg")?;
    let dat = required(matches, "dat")?;
    Ok(Measuring {
        settings,
        channels,
        reference,
        cfg,
        dat,
    })
}
