// The words of the command line.
ghost use Rattle.std.specs.Prelude.{◌≡◌, drop};
ghost use Rattle.std.specs.Option.{option_copied};
ghost use Rattle.faim_top.specs.Words.{begun, made_of, named, numbered, path_after, path_of, texts};

use crate::Query;

/// The words after the program's name: all but the first.
pub fn words_after_name(all: &[String]) -> &[String]
    ensures { result.now ≡ drop 1 all.now }
{
    match all {
        [_, words @ ..] => words,
        [] => &[],
    }
}

/// What the program is asked for.
#[derive(Clone, Copy, Debug, PartialEq, Eq)]
pub enum Command {
    /// An answer in print.
    Answer(Query),
    /// A journal of a host without entries, whose configuration is the input.
    HostInit,
    /// A session of the host that a journal keeps.
    Host,
    /// A journal of a bank without entries, whose text is the input.
    BankInit,
    /// A session of the bank that a journal keeps.
    Bank,
}

impl Command {
    ghost use Rattle.std.specs.Prelude.{◌≡◌};
    ghost use Rattle.faim_top.specs.Words.{command_of, texts};

    /// The command that the words are; none where they are no command (docs/FORMATS.md, "Commands").
    pub fn read(words: &[String]) -> Option<Command>
        ensures { result ≡ command_of (texts words.now) }
    {
        match words {
            [word] => named(word.as_str()),
            [word, number] => numbered(word.as_str(), number.as_str()),
            [word, init, _] => begun(word.as_str(), init.as_str()),
            _ => None,
        }
    }
}

// A command of one word.
fn named(word: &str) -> Option<Command>
    ensures { result ≡ named word.now }
{
    match word {
        "check" => Some(Command::Answer(Query::Check)),
        "replay" => Some(Command::Answer(Query::Replay)),
        _ => None,
    }
}

// The edit table by its number, or a session with a path.
fn numbered(word: &str, number: &str) -> Option<Command>
    ensures { result ≡ numbered word.now number.now }
{
    match (word, number) {
        ("table", "1") => Some(Command::Answer(Query::Table)),
        ("host", _) => Some(Command::Host),
        ("bank", _) => Some(Command::Bank),
        _ => None,
    }
}

// An init with a path.
fn begun(word: &str, init: &str) -> Option<Command>
    ensures { result ≡ begun word.now init.now }
{
    match init {
        "init" => made_of(word),
        _ => None,
    }
}

// The init of a host, or of a bank.
fn made_of(word: &str) -> Option<Command>
    ensures { result ≡ made_of word.now }
{
    match word {
        "host" => Some(Command::HostInit),
        "bank" => Some(Command::BankInit),
        _ => None,
    }
}

/// The path of the file that a command keeps its journal in: the last word of a command that has one. None for other words.
pub fn path_in(words: &[String]) -> Option<&str>
    ensures { option_copied result ≡ path_of (texts words.now) }
{
    match words {
        [word, path] => path_after(numbered(word.as_str(), path.as_str()), path.as_str()),
        [word, init, path] => path_after(begun(word.as_str(), init.as_str()), path.as_str()),
        _ => None,
    }
}

fn path_after(command: Option<Command>, path: &str) -> Option<&str>
    ensures { option_copied result ≡ path_after command path.now }
{
    match command {
        Some(Command::HostInit)
        | Some(Command::Host)
        | Some(Command::BankInit)
        | Some(Command::Bank) => Some(path),
        Some(Command::Answer(_)) | None => None,
    }
}
