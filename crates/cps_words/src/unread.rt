//! Why words ask nothing, and what is said of that.
ghost use Rattle.std.specs.Prelude.{◌≡◌, ◌⊎◌};
ghost use Rattle.clap.specs.Words.{kind_of};
ghost use Rattle.cps_words.specs.Code.Reading.{IsRefusal, IsWrong, Says};

use super::message::shown;
use clap::Error;
use clap::error::ErrorKind;
use std::alloc::Global;

/// What is said where a call asks nothing of the kind, or where memory was refused. A text ends with a newline.
#[derive(Drop)]
pub enum Unread {
    /// The help or the version, which was asked for.
    Told(String),
    /// What is wrong with the words.
    Wrong(String),
    /// There was no memory to read the words, or for a text.
    Memory,
}

/// What is said of a word that an option doesn't take. `names` are those that it takes, with a comma and a blank between two.
pub fn say_no_name(alloc: Global, option: &str, names: &str, word: &str) -> Unread
    ensures { IsRefusal result }
{
    let tip = match similar_name(names, word) {
        Some(name) => format!(in alloc; "\n  tip: a similar value exists: '{name}'\n"),
        None => Ok(String::new(alloc)),
    };
    let Ok(tip) = tip else {
        return Unread::Memory;
    };
    let text = format!(in alloc;
        "error: invalid value '{word}' for '{option}'\n  [possible values: {names}]\n{tip}\nFor more information, try '--help'.\n"
    );
    match text {
        Ok(text) => wrong(alloc, &text),
        Err(_) => Unread::Memory,
    }
}

/// What is said of a word that names no command.
pub fn say_no_command(alloc: Global, word: &str) -> Unread
    ensures { (result ≡ Unread.Memory) ⊎ IsWrong result }
{
    let text = format!(in alloc;
        "error: unrecognized subcommand '{word}'\n\nFor more information, try '--help'.\n"
    );
    match text {
        Ok(text) => wrong(alloc, &text),
        Err(_) => Unread::Memory,
    }
}

/// What is said of a value that an option can't have, with what to write.
pub fn say_wrong_value(alloc: Global, option: &str, word: &str, wanted: &str) -> Unread
    ensures { IsRefusal result }
{
    let text = format!(in alloc;
        "error: invalid value '{word}' for '{option}': {wanted}\n\nFor more information, try '--help'.\n"
    );
    match text {
        Ok(text) => wrong(alloc, &text),
        Err(_) => Unread::Memory,
    }
}

/// The first of these names that begins with the word, or that the word begins with.
fn similar_name<'a>(names: &'a str, word: &str) -> Option<&'a str> {
    if word.is_empty() {
        return None;
    }
    names
        .split(", ")
        .find(|name| name.starts_with(word) || word.starts_with(*name))
}

/// What is said of an offset with a minus that is a word of its own.
pub fn say_parted_offset(alloc: Global, word: &str) -> Unread
    ensures { IsRefusal result }
{
    let text = format!(in alloc;
        "error: invalid value '{word}' for '--offset <N>': behind a minus write '--offset={word}'\n\nFor more information, try '--help'.\n"
    );
    match text {
        Ok(text) => wrong(alloc, &text),
        Err(_) => Unread::Memory,
    }
}

/// What is said of a file in front of which no command stands.
pub fn say_file_alone(alloc: Global, word: &str) -> Unread
    ensures { IsRefusal result }
{
    let text = format!(in alloc;
        "error: no command stands before '{word}'; to assemble it: compass batch {word}\n\nFor more information, try '--help'.\n"
    );
    match text {
        Ok(text) => wrong(alloc, &text),
        Err(_) => Unread::Memory,
    }
}

/// What is wrong with the words.
pub fn wrong(alloc: Global, text: &str) -> Unread
    ensures { (result ≡ Unread.Memory) ⊎ IsWrong result }
{
    match shown(alloc, text) {
        Ok(text) => Unread::Wrong(text),
        Err(_) => Unread::Memory,
    }
}

/// What is said where `clap` stopped.
pub fn say(alloc: Global, error: &Error) -> Unread
    ensures { Says (kind_of error.now) result }
{
    let Ok(text) = error.to_string(alloc) else {
        return Unread::Memory;
    };
    match error.kind() {
        ErrorKind::OutOfMemory => Unread::Memory,
        ErrorKind::DisplayHelp | ErrorKind::DisplayVersion => Unread::Told(text),
        _ => wrong(alloc, &text),
    }
}
