// The form of the words, by a `clap` command.
ghost use Rattle.std.specs.Prelude.{◌≡◌, ◌≤◌, false, true, map, string_bytes, IfOk, IsErrOf, option_map, length};
ghost use Rattle.std.specs.List.{list_any};
ghost use Rattle.clap.specs.Words.{app_of, subcommand_rows_of};
ghost use Rattle.clap.specs.declared.builder.command.Command.TheViews.{out-Command as fields_of};
ghost use Rattle.agent_words.specs.Words.{Form, words_of, begins_with_hyphen};
ghost use Rattle.agent_words.specs.Parser.{run_app, check_app, gen_app, agent_app, form_in, form_from, form_behind};

use crate::WordsFault;
use clap::error::ErrorKind;
use clap::{Arg, ArgMatches, Command};
use net_types::NoMemory;
use std::alloc::Global;

/// The most words that a command has.
const MOST_WORDS: usize = 3;

/// The form of a command's words, with the texts that stand for its values.
#[derive(Clone, Copy, Debug)]
pub(crate) enum CommandText<'a> {
    /// `run`.
    Run,
    /// `run` with a text for the name.
    Keep(&'a str),
    /// `check` with a text for the name.
    Check(&'a str),
    /// `gen` with texts for the seed and the count.
    Gen(&'a str, &'a str),
}

fn run_command<'a>(alloc: Global) -> Result<Command<'a>, NoMemory>
    ensures { IfOk result (λ c. (app_of c ≡ run_app) × ((fields_of c).has_globals ≡ false)) }
{
    Command::new(alloc, "run").arg(Arg::new(alloc, "name"))
}

fn check_command<'a>(alloc: Global) -> Result<Command<'a>, NoMemory>
    ensures { IfOk result (λ c. (app_of c ≡ check_app) × ((fields_of c).has_globals ≡ false)) }
{
    Command::new(alloc, "check").arg(Arg::new(alloc, "name").required(true))
}

fn gen_command<'a>(alloc: Global) -> Result<Command<'a>, NoMemory>
    ensures { IfOk result (λ c. (app_of c ≡ gen_app) × ((fields_of c).has_globals ≡ false)) }
{
    Command::new(alloc, "gen")
        .arg(Arg::new(alloc, "seed").required(true))?
        .arg(Arg::new(alloc, "count").required(true))
}

/// The parser of the program's words. There is no help and no version among them.
fn agent_command<'a>(alloc: Global) -> Result<Command<'a>, NoMemory>
    ensures { IfOk result (λ c. app_of c ≡ agent_app) }
{
    Command::new(alloc, "fboss_agent")
        .no_binary_name(true)
        .disable_help_flag(true)
        .disable_help_subcommand(true)
        .disable_version_flag(true)
        .subcommand_required(true)
        .subcommand(run_command(alloc)?)?
        .subcommand(check_command(alloc)?)?
        .subcommand(gen_command(alloc)?)
}

fn begins_with_hyphen(word: &str) -> bool
    ensures { result ≡ begins_with_hyphen word.now }
{
    match word.as_bytes() {
        [] => false,
        [first, ..] => *first == b'-',
    }
}

/// Whether one of the words begins with a hyphen.
fn is_hyphened(words: &[String]) -> bool
    ensures { result ≡ list_any begins_with_hyphen (map string_bytes words.now) }
{
    for word in words {
        if begins_with_hyphen(word.as_str()) {
            return true;
        }
    }
    false
}

/// What a subcommand of that name says with these values.
fn text_from<'a>(
    name: &str,
    first: Option<&'a str>,
    seed: Option<&'a str>,
    count: Option<&'a str>,
) -> Option<CommandText<'a>>
    ensures { option_map form_behind result ≡ form_from name.now
        (option_map (λ s. s.now) first.entry) (option_map (λ s. s.now) seed.entry) (option_map (λ s. s.now) count.entry) }
{
    if name == "run" {
        return Some(match first {
            Some(name) => CommandText::Keep(name),
            None => CommandText::Run,
        });
    }
    if name == "check" {
        return match first {
            Some(name) => Some(CommandText::Check(name)),
            None => None,
        };
    }
    if name == "gen" {
        return match (seed, count) {
            (Some(seed), Some(count)) => Some(CommandText::Gen(seed, count)),
            _ => None,
        };
    }
    None
}

/// What the parser's matches say.
fn text_in<'a>(matches: &ArgMatches<'a>) -> Option<CommandText<'a>>
    ensures { option_map form_behind result ≡ form_in (subcommand_rows_of matches.now) }
{
    match matches.subcommand() {
        Some((name, found)) => text_from(
            name,
            found.get_str("name"),
            found.get_str("seed"),
            found.get_str("count"),
        ),
        None => None,
    }
}

/// The form of the words. Words that begin with a hyphen are refused before the parser, since it
/// would take `--` and pass over it.
pub(crate) fn text_of<'a>(alloc: Global, words: &'a [String]) -> Result<CommandText<'a>, WordsFault>
    ensures text { IfOk result (λ t. map string_bytes words.now ≡ words_of (form_behind t)) }
    ensures refused { IsErrOf result WordsFault.Refused
        → (f : Form) → map string_bytes words.now ≡ words_of f
        → list_any begins_with_hyphen (map string_bytes words.now) ≡ true }
{
    if words.len() > MOST_WORDS {
        return Err(WordsFault::Refused);
    }
    if is_hyphened(words) {
        return Err(WordsFault::Refused);
    }
    let command = agent_command(alloc)?;
    match command.try_get_matches_from(words) {
        Ok(matches) => match text_in(&matches) {
            Some(text) => Ok(text),
            None => Err(WordsFault::Refused),
        },
        Err(error) => {
            if error.kind() == ErrorKind::OutOfMemory {
                Err(WordsFault::NoMemory)
            } else {
                Err(WordsFault::Refused)
            }
        }
    }
}
