//! The words after a command, as `clap` reads them.

ghost use Rattle.std.specs.Prelude.{◌≡◌, ◌≤◌, IfOk, IfSome, None, option_map, [], codes, false, bytes_eq};
ghost use Rattle.clap.specs.Words.{app_of, rule_of};
ghost use Rattle.command_line.specs.Words.{GivenWords, texts, texts_of, place_in, words_given};
ghost use Rattle.command_line.specs.ClapWords.{positional_id, option_rule, simple_app, if_any, AreRead, IsGiven};
ghost use Rattle.command_line.specs.Settings.{set_to};
ghost use Rattle.command_line.specs.Orders.{setting_value};

use crate::setting::Setting;
use clap::error::ErrorKind;
use clap::{Arg, ArgAction, ArgMatches, Command};
use std::alloc::Global;
use units::NoMemory;

/// What the positional words of a command stand under. No option has this name.
const POSITIONAL: &str = "words";

/// What the words after a command give, where its options have these names. None where a word is
/// refused, where an option has no value or a value that begins with `-`, or where one stands twice.
pub(crate) fn read<'a>(
    alloc: Global,
    options: &[&'a str],
    words: &'a [String],
) -> Result<Option<ArgMatches<'a>>, NoMemory>
    requires apart { place_in (texts_of options.now) positional_id ≡ None }
    ensures { IfOk result (λ given. AreRead (texts_of options.now) given
        (words_given (texts_of options.now) (texts words.entry.now))) }
{
    let command = command(alloc, options)?;
    match command.try_get_matches_from(words) {
        Ok(matches) => Ok(Some(matches)),
        Err(error) => match error.kind() {
            ErrorKind::OutOfMemory => Err(NoMemory),
            _ => Ok(None),
        },
    }
}

/// A command whose options have these names. It has no help, no version and no short names.
fn command<'a>(alloc: Global, options: &[&'a str]) -> Result<Command<'a>, NoMemory>
    ensures { IfOk result (λ command. app_of command ≡ simple_app (texts_of options.now)) }
{
    let mut command = plain(alloc)?;
    for name in options {
        command = command.arg(option(alloc, name))?;
    }
    Ok(command)
}

/// An option with this name, which takes one value.
fn option<'a>(alloc: Global, name: &'a str) -> Arg<'a>
    ensures rule { rule_of result ≡ option_rule name.entry.now }
    ensures local { result.global ≡ false }
{
    Arg::new(alloc, name).long(name).action(ArgAction::Set)
}

/// A command without options.
fn plain<'a>(alloc: Global) -> Result<Command<'a>, NoMemory>
    ensures { IfOk result (λ command. app_of command ≡ simple_app []) }
{
    let words = Arg::new(alloc, POSITIONAL).action(ArgAction::Append);
    let command = Command::new(alloc, "discard")
        .no_binary_name(true)
        .disable_help_flag(true)
        .arg(words)?;
    Ok(command)
}

/// The positional words, None where there are none.
pub(crate) fn positional<'m, 'a>(given: &'m ArgMatches<'a>) -> Option<&'m [&'a str]>
    ensures { (all : GivenWords) → IsGiven given.now all
        → option_map (λ words. texts_of words.now) result ≡ if_any all.positional }
{
    given.get_strs(POSITIONAL)
}

/// The number that an option is set to. None where its value is no number in its range.
pub(crate) fn set_to(given: &ArgMatches<'_>, setting: Setting) -> Option<u64>
    requires range { (setting.least ≤ setting.default) × (setting.default ≤ setting.most) }
    requires apart { bytes_eq positional_id setting.name.now ≡ false }
    ensures value { (all : GivenWords) → IsGiven given.now all
        → result ≡ set_to (setting_value setting) all }
    ensures within { IfSome result (λ n. (setting.least ≤ n) × (n ≤ setting.most)) }
{
    setting.number(given.get_str(setting.name))
}
