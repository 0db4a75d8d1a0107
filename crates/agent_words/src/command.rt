// What the program is asked to do.
ghost use Rattle.std.specs.Prelude.{◌≡◌, ◌≤◌, ◌<◌, ◌^◌, ◌∷◌, [], ℕ, false, map, codes, string_bytes, IfOk, IfErr, IsErrOf};
ghost use Rattle.std.specs.Fmt.{decimal};
ghost use Rattle.net_types.specs.Names.{is_name};
ghost use Rattle.agent_words.specs.Words.{IsCommand, words_of, gen_form};
ghost use Rattle.agent_words.specs.Parser.{form_behind};

use crate::parser::{CommandText, text_of};
use crate::values::number_of;
use net_types::{Name, NoMemory};
use std::alloc::Global;
use thiserror::Error;

/// The most updates that can be asked for.
const MOST_UPDATES: u64 = 20_000;

/// What the program is asked to do.
#[derive(Debug, Drop)]
pub enum Command {
    /// `run`, or `run NAME`: to run a script, and to keep what it ends with under the name, if
    /// there is one.
    Run { save: Option<Name> },
    /// `check NAME`: to test what was kept under that name.
    Check { name: Name },
    /// `gen SEED COUNT`: to run `count` updates, 1 to 20,000, that are drawn from the seed.
    Gen { seed: u64, count: u32 },
}

/// Why there is no command.
#[derive(Clone, Copy, Debug, PartialEq, Eq, Hash, Error)]
pub enum WordsFault {
    /// The words are those of no command.
    #[error("these are the words of no command")]
    Refused,
    /// Memory was refused.
    #[error("no memory is left")]
    NoMemory,
}

impl From<NoMemory> for WordsFault {
    ghost use Rattle.agent_words.specs.declared.command.WordsFault.TheVariants as words_faults;

    ghost from_gives = { λ _ fault. fault ≡ words_faults.NoMemory };

    fn from(_: NoMemory) -> Self {
        WordsFault::NoMemory
    }
}

/// The command that the words ask for. They come without the program's name. They are refused
/// exactly where they are those of no command.
pub fn read_words(alloc: Global, words: &Vec<String>) -> Result<Command, WordsFault>
    ensures read { IfOk result (λ c. IsCommand c (map string_bytes words.now.items)) }
    ensures refused { IsErrOf result WordsFault.Refused
        → (c : Command) → IsCommand c (map string_bytes words.now.items) → ⊥ }
{
    match text_of(alloc, words.as_slice()) {
        Ok(text) => command_of(alloc, text),
        Err(fault) => Err(fault),
    }
}

/// The command of these texts.
fn command_of(alloc: Global, text: CommandText<'_>) -> Result<Command, WordsFault>
    ensures read { IfOk result (λ c. IsCommand c (words_of (form_behind text.entry))) }
    ensures refused { IsErrOf result WordsFault.Refused
        → (c : Command) → IsCommand c (words_of (form_behind text.entry)) → ⊥ }
{
    match text {
        CommandText::Run => Ok(Command::Run { save: None }),
        CommandText::Keep(text) => match name_of(alloc, text) {
            Ok(name) => Ok(Command::Run { save: Some(name) }),
            Err(fault) => Err(fault),
        },
        CommandText::Check(text) => match name_of(alloc, text) {
            Ok(name) => Ok(Command::Check { name }),
            Err(fault) => Err(fault),
        },
        CommandText::Gen(seed, count) => generated(seed, count),
    }
}

/// The name of that text.
fn name_of(alloc: Global, text: &str) -> Result<Name, WordsFault>
    ensures ok { IfOk result (λ n. n ≡ text.now) }
    ensures refused { IsErrOf result WordsFault.Refused → is_name text.now ≡ false }
{
    match Name::of(alloc, text.as_bytes())? {
        Some(name) => Ok(name),
        None => Err(WordsFault::Refused),
    }
}

/// The command for generated work, of these two texts.
fn generated(seed: &str, count: &str) -> Result<Command, WordsFault>
    ensures ok { IfOk result (λ c. IsCommand c (words_of (gen_form seed.now count.now))) }
    ensures refused { IsErrOf result WordsFault.Refused
        → (c : Command) → IsCommand c (words_of (gen_form seed.now count.now)) → ⊥ }
{
    let Some(seed) = number_of(seed, 0, u64::MAX) else {
        return Err(WordsFault::Refused);
    };
    let Some(count) = number_of(count, 1, MOST_UPDATES) else {
        return Err(WordsFault::Refused);
    };
    Ok(Command::Gen {
        seed,
        count: count as u32,
    })
}
