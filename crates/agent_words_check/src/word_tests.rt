//! Lines of words, with the command that each asks for.
use agent_words::{Command, WordsFault, read_words};
use net_types::NoMemory;
use std::alloc::Global;
use std::test::Fail;

/// A command, with its name as bytes.
#[derive(Clone, Copy, Debug, PartialEq, Eq)]
enum Asked<'a> {
    Run,
    Keep(&'a [u8]),
    Check(&'a [u8]),
    Gen(u64, u32),
}

const COMMANDS: [(&str, Asked<'static>); 10] = [
    ("run", Asked::Run),
    ("run s1", Asked::Keep(b"s1")),
    ("run run", Asked::Keep(b"run")),
    ("run 0.a_b-c", Asked::Keep(b"0.a_b-c")),
    ("check s1", Asked::Check(b"s1")),
    ("check help", Asked::Check(b"help")),
    ("gen 1 2000", Asked::Gen(1, 2000)),
    ("gen 0 1", Asked::Gen(0, 1)),
    (
        "gen 18446744073709551615 20000",
        Asked::Gen(18446744073709551615, 20000),
    ),
    ("gen 10 10", Asked::Gen(10, 10)),
];

/// Words of no command, parted by single spaces: two spaces have an empty word between them.
const REFUSED: [&str; 34] = [
    "",
    "help",
    "help run",
    "-h",
    "--help",
    "-V",
    "--version",
    "version",
    "Run",
    "ru",
    "run ",
    " run",
    "run  s1",
    "run a b",
    "run -",
    "run --",
    "run -- s1",
    "-- run",
    "run --name",
    "run .a",
    "run _a",
    "run A",
    "run a/b",
    "check",
    "check a b",
    "check -- s1",
    "gen",
    "gen 1",
    "gen 1 0",
    "gen 1 20001",
    "gen 01 2",
    "gen +1 2",
    "gen 18446744073709551616 1",
    "gen 1 2 3",
];

fn words_of(alloc: Global, line: &str) -> Result<Vec<String>, NoMemory> {
    let mut words = Vec::new(alloc);
    for word in line.split(' ') {
        let word = String::from_str(alloc, word)?;
        words.push(word)?;
    }
    Ok(words)
}

/// The command asks for that.
fn asks(command: &Command, asked: Asked<'_>) -> bool {
    match command {
        Command::Run { save: None } => asked == Asked::Run,
        Command::Run { save: Some(name) } => asked == Asked::Keep(name.bytes()),
        Command::Check { name } => asked == Asked::Check(name.bytes()),
        Command::Gen { seed, count } => asked == Asked::Gen(*seed, *count),
    }
}

/// The words ask for that, or for nothing.
fn are_read(alloc: Global, words: &Vec<String>, asked: Option<Asked<'_>>) -> bool {
    match read_words(alloc, words) {
        Ok(command) => {
            let is_asked = match asked {
                Some(asked) => asks(&command, asked),
                None => false,
            };
            drop(command);
            is_asked
        }
        Err(fault) => fault == WordsFault::Refused && asked.is_none(),
    }
}

#[test]
fn commands_are_read(rt: HostRuntime) -> Result<(), Fail> {
    let alloc = rt.alloc();
    for (line, asked) in COMMANDS {
        let words = words_of(alloc, line)?;
        let is_read = are_read(alloc, &words, Some(asked));
        drop(words);
        assert!(rt; is_read, "{line}");
    }
    Ok(())
}

#[test]
fn other_words_are_refused(rt: HostRuntime) -> Result<(), Fail> {
    let alloc = rt.alloc();
    for line in REFUSED {
        let words = words_of(alloc, line)?;
        let is_refused = are_read(alloc, &words, None);
        drop(words);
        assert!(rt; is_refused, "{line}");
    }
    Ok(())
}

#[test]
fn no_words_are_refused(rt: HostRuntime) {
    let alloc = rt.alloc();
    let words = Vec::new(alloc);
    let is_refused = are_read(alloc, &words, None);
    drop(words);
    assert!(rt; is_refused);
}

#[test]
fn faults_are_printed(rt: HostRuntime) -> Result<(), Fail> {
    let alloc = rt.alloc();
    for (fault, wanted) in [
        (WordsFault::Refused, "these are the words of no command"),
        (WordsFault::NoMemory, "no memory is left"),
    ] {
        let text = format!(in alloc; "{fault}")?;
        let is_wanted = text.as_str() == wanted;
        drop(text);
        assert!(rt; is_wanted);
    }
    Ok(())
}
