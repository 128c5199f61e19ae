// The words after a command's name, as one simple command of clap.
ghost use Rattle.std.specs.Prelude.{◌≡◌, IfOk, false, true};
ghost use Rattle.clap.specs.Words.{app_of, is_simple_and_free, kind_of, rule_of, with_rule};
ghost use Rattle.command_words.specs.Commands.{words_view};
ghost use Rattle.command_words.specs.Simple.{bare_app, check_app, emit_app, generate_app, kind_fault, measuring_app, option_rule, positional_rule, replay_app, required, rows_found, said_by};
ghost use Rattle.command_words.specs.Values.{GivesView};

use crate::command::WordsFault;
use clap::error::ErrorKind;
use clap::{Arg, ArgAction, ArgMatches, Command};
use std::alloc::{AllocError, Global};

/// What the simple command makes of the words.
pub(crate) fn matches_of<'a>(
    command: Command<'a>,
    words: &'a [String],
) -> Result<ArgMatches<'a>, WordsFault>
    requires { is_simple_and_free (app_of command) ≡ true }
    ensures { GivesView rows_found result (said_by (app_of command.entry) (words_view words.now)) }
{
    match command.try_get_matches_from(words) {
        Ok(matches) => Ok(matches),
        Err(why) => Err(kind_fault(why.kind())),
    }
}

fn kind_fault(kind: ErrorKind) -> WordsFault
    ensures { result ≡ kind_fault kind }
{
    match kind {
        ErrorKind::OutOfMemory => WordsFault::OutOfMemory,
        _ => WordsFault::NotUnderstood,
    }
}

/// `CFG`.
#[tactic(auto, unfolding(crate::specs::Simple::check_app))]
pub(crate) fn check_command<'a>(alloc: Global) -> Result<Command<'a>, AllocError>
    ensures { IfOk result (λ command. app_of command ≡ check_app) }
{
    with_positional(alloc, bare(alloc), "cfg")
}

/// `PART K`.
#[tactic(auto, unfolding(crate::specs::Simple::emit_app))]
pub(crate) fn emit_command<'a>(alloc: Global) -> Result<Command<'a>, AllocError>
    ensures { IfOk result (λ command. app_of command ≡ emit_app) }
{
    let command = with_positional(alloc, bare(alloc), "part")?;
    with_positional(alloc, command, "seed")
}

/// `K`.
#[tactic(auto, unfolding(crate::specs::Simple::generate_app))]
pub(crate) fn generate_command<'a>(alloc: Global) -> Result<Command<'a>, AllocError>
    ensures { IfOk result (λ command. app_of command ≡ generate_app) }
{
    with_positional(alloc, bare(alloc), "seed")
}

/// Options, and `CFG DAT`.
#[tactic(auto, unfolding(crate::specs::Simple::measuring_app))]
pub(crate) fn measuring_command<'a>(alloc: Global) -> Result<Command<'a>, AllocError>
    ensures { IfOk result (λ command. app_of command ≡ measuring_app) }
{
    let command = bare(alloc).arg(option(alloc, "udin").required(true))?;
    let command = with_option(alloc, command, "channels")?;
    let command = with_option(alloc, command, "reference")?;
    let command = with_option(alloc, command, "dip")?;
    let command = with_option(alloc, command, "swell")?;
    let command = with_option(alloc, command, "interruption")?;
    let command = with_option(alloc, command, "hysteresis")?;
    let command = with_positional(alloc, command, "cfg")?;
    with_positional(alloc, command, "dat")
}

/// Options, and `CFG DAT SCHEDULE`.
#[tactic(auto, unfolding(crate::specs::Simple::replay_app))]
pub(crate) fn replay_command<'a>(alloc: Global) -> Result<Command<'a>, AllocError>
    ensures { IfOk result (λ command. app_of command ≡ replay_app) }
{
    let command = measuring_command(alloc)?;
    with_positional(alloc, command, "schedule")
}

// No option and no positional, and neither help nor version.
fn bare<'a>(alloc: Global) -> Command<'a>
    ensures { app_of result ≡ bare_app }
{
    Command::new(alloc, "pqa")
        .no_binary_name(true)
        .disable_help_flag(true)
        .disable_version_flag(true)
}

// An option with one value.
fn option<'a>(alloc: Global, name: &'a str) -> Arg<'a>
    ensures rule { rule_of result ≡ option_rule name.now }
    ensures own { result.global ≡ false }
{
    Arg::new(alloc, name).long(name).action(ArgAction::Set)
}

fn with_option<'a>(
    alloc: Global,
    command: Command<'a>,
    name: &'a str,
) -> Result<Command<'a>, AllocError>
    ensures { IfOk result (λ more. app_of more ≡ with_rule (app_of command.entry) (option_rule name.now)) }
{
    command.arg(option(alloc, name))
}

fn with_positional<'a>(
    alloc: Global,
    command: Command<'a>,
    name: &'a str,
) -> Result<Command<'a>, AllocError>
    ensures { IfOk result (λ more.
        app_of more ≡ with_rule (app_of command.entry) (positional_rule name.now)) }
{
    let positional = Arg::new(alloc, name).action(ArgAction::Set).required(true);
    command.arg(positional)
}
