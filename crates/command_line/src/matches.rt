// The words of a command, as clap reads them: each operand and each value of an option, unjudged.
ghost use Rattle.std.specs.Prelude.{◌≡◌, IfOk, None, false, [], map, string_bytes};
ghost use Rattle.clap.specs.Matches.{found_of};
ghost use Rattle.clap.specs.Simple.{app_of};
ghost use Rattle.clap.specs.Walk.{rows_of, rule_of};
ghost use Rattle.command_line.specs.Matches.{Finds, app_of_settings, app_with, operand_rule, option_rule, rule_of_setting, values_under};
ghost use Rattle.command_line.specs.Pieces.{pieces_of};

use crate::error::WordsError;
use crate::setting::Setting;
use clap::error::ErrorKind;
use clap::{Arg, ArgAction, ArgMatches, Command};
use std::alloc::{AllocError, Global};

/// The name under which operands are found.
pub const OPERAND: &str = "operand";

// An option as clap knows it, each use of which is kept. One without values has the empty one.
fn option_arg<'a>(alloc: Global, name: &'a str, values: usize) -> Arg<'a>
    ensures rule { rule_of result ≡ option_rule name.entry.now values }
    ensures local { result.global ≡ false }
{
    Arg::new(alloc, name)
        .long(name)
        .action(ArgAction::Append)
        .num_args(values)
        .default_missing_value("")
}

// The operands as clap knows them, each of which is kept.
fn operand_arg<'a>(alloc: Global) -> Arg<'a>
    ensures rule { rule_of result ≡ operand_rule }
    ensures local { result.global ≡ false }
{
    Arg::new(alloc, OPERAND).action(ArgAction::Append)
}

// A command without options or operands.
fn bare_app<'a>(alloc: Global) -> Command<'a>
    ensures { app_of result ≡ app_with [] }
{
    Command::new(alloc, "ehc")
        .no_binary_name(true)
        .disable_help_flag(true)
        .disable_version_flag(true)
}

// The command with its options.
fn app_of_options<'a>(alloc: Global, settings: &[Setting]) -> Result<Command<'a>, AllocError>
    ensures { IfOk result (λ app. app_of app ≡ app_with (map rule_of_setting settings.now)) }
{
    let mut app = bare_app(alloc);
    for setting in settings {
        app = app.arg(option_arg(alloc, setting.name(), setting.value_count()))?;
    }
    Ok(app)
}

// The command as clap knows it.
fn app<'a>(alloc: Global, settings: &[Setting]) -> Result<Command<'a>, AllocError>
    ensures { IfOk result (λ app. app_of app ≡ app_of_settings settings.now) }
{
    let app = app_of_options(alloc, settings)?;
    app.arg(operand_arg(alloc))
}

/// What the words have for these options. Usage where they can't be read so.
pub fn matches_of<'a>(
    alloc: Global,
    settings: &[Setting],
    words: &'a [String],
) -> Result<ArgMatches<'a>, WordsError>
    ensures { Finds (pieces_of settings.now (map string_bytes words.now) None) result }
{
    let app = app(alloc, settings)?;
    match app.try_get_matches_from(words) {
        Ok(matches) => Ok(matches),
        Err(error) => match error.kind() {
            ErrorKind::OutOfMemory => Err(WordsError::NoMemory),
            _ => Err(WordsError::Usage),
        },
    }
}

/// What was found under a name, in order.
pub fn texts_of(
    alloc: Global,
    matches: &ArgMatches<'_>,
    name: &str,
) -> Result<Vec<String>, AllocError>
    ensures { IfOk result (λ texts. map string_bytes texts.items ≡ values_under name.now (rows_of (found_of matches.now))) }
{
    match matches.get_raw(name) {
        Some(values) => owned(alloc, values),
        None => Ok(Vec::new(alloc)),
    }
}

// The texts, as strings of their own.
fn owned(alloc: Global, texts: &[&str]) -> Result<Vec<String>, AllocError>
    ensures { IfOk result (λ strings. map string_bytes strings.items ≡ map (λ t. t.now) texts.now) }
{
    let mut strings = Vec::new(alloc);
    for text in texts {
        strings.push(text.to_string(alloc)?)?;
    }
    Ok(strings)
}
