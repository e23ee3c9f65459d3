//! The command `help`.
ghost use Rattle.std.specs.Prelude.{◌≡◌};
ghost use Rattle.cps_words.specs.Outputs.{name_of};
ghost use Rattle.cps_words.specs.Code.Reading.{IsTold, Reads};
ghost use Rattle.cps_words.specs.Request.{answer_of_help};
ghost use Rattle.cps_words.specs.Values as values;

use super::command_line::compass_command;
use super::request::Call;
use super::unread::{Unread, say, say_no_command};
use std::alloc::Global;

/// What `help` asks: the help of a command, or of the program where no command is named.
pub fn read_help<'a>(alloc: Global, command: Option<&str>) -> Result<Call<'a>, Unread>
    ensures { Reads (answer_of_help (name_of command.entry)) result }
{
    match command {
        None => Err(tell_help(alloc, &["compass", "--help"])),
        Some(name) if is_command(name) => Err(tell_help(alloc, &["compass", name, "--help"])),
        Some(name) => Err(say_no_command(alloc, name)),
    }
}

fn is_command(name: &str) -> bool
    ensures { result ≡ values.is_command name.now }
{
    matches!(
        name,
        "batch" | "session" | "check" | "compare" | "disassemble" | "explain" | "server" | "help"
    )
}

/// The help that is told where these words are those of the call. Nothing else is answered to them while there is memory.
fn tell_help(alloc: Global, words: &[&str]) -> Unread
    ensures { IsTold result }
{
    let Ok(command) = compass_command(alloc) else {
        return Unread::Memory;
    };
    let Err(error) = command.try_get_matches_from(words) else {
        return Unread::Memory;
    };
    match say(alloc, &error) {
        Unread::Told(text) => Unread::Told(text),
        _ => Unread::Memory,
    }
}
