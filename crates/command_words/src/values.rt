// The value of an option, or the word of a positional.
ghost use Rattle.std.specs.Prelude.{◌≡◌};
ghost use Rattle.clap.specs.Words.{first_of};
ghost use Rattle.command_words.specs.Simple.{rows_found};
ghost use Rattle.command_words.specs.Values.{GivesView, text_view, understood};

use crate::command::WordsFault;
use clap::ArgMatches;

/// None where it isn't among the words.
pub(crate) fn value_of<'a>(matches: &ArgMatches<'a>, name: &str) -> Option<&'a str>
    ensures { text_view result ≡ first_of name.now (rows_found matches.now) }
{
    matches.get_str(name)
}

/// One that has to be there.
pub(crate) fn required<'a>(matches: &ArgMatches<'a>, name: &str) -> Result<&'a str, WordsFault>
    ensures { GivesView (λ t. t.now) result (understood (first_of name.now (rows_found matches.now))) }
{
    match value_of(matches, name) {
        Some(text) => Ok(text),
        None => Err(WordsFault::NotUnderstood),
    }
}
