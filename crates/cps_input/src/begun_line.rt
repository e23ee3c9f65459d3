//! A line of a source or of a script, as its bytes come.
ghost use Rattle.std.specs.Prelude.{◌≡◌, ℕ, List, [], ◌∷◌, ◌++◌, IsTrue, ◌↔◌};
ghost use Rattle.cps_input.specs.Lines.{without_return};
ghost use Rattle.cps_input.specs.Code.BegunLine.{IsBegun, IsGiven, more_past};

use super::line_end::without_return;
use arrayvec::ArrayVec;
use cps_text::limits::MOST_COMMAND_BYTES;

/// What came past the room of a line.
#[derive(Clone, Copy, PartialEq, Eq)]
pub enum Overrun {
    /// No byte.
    Nothing,
    /// A carriage return, which is dropped if the line ends here.
    Return,
    /// More than that: the line is too long.
    More,
}

/// A line of which some bytes have come. As many are kept as a command of a script has, and more than a line of a source has.
#[derive(Drop)]
pub struct BegunLine {
    pub bytes: ArrayVec<u8, MOST_COMMAND_BYTES>,
    pub past: Overrun,
}

impl BegunLine {
    /// A line of which no byte has come.
    pub fn new() -> BegunLine
        ensures { IsBegun result [] }
    {
        BegunLine {
            bytes: ArrayVec::new(),
            past: Overrun::Nothing,
        }
    }

    /// Becomes a line of which no byte has come.
    pub fn clear(&mut self)
        ensures { IsBegun self.new [] }
    {
        self.bytes.clear();
        self.past = Overrun::Nothing;
    }

    /// Whether no byte has come.
    pub fn is_empty(&self) -> bool
        ensures { (begun : List ℕ) → IsBegun self.now begun → IsTrue result ↔ (begun ≡ []) }
    {
        self.bytes.is_empty()
    }

    /// Takes the next byte. Past 200 bytes none is kept.
    pub fn push(&mut self, byte: u8)
        ensures { (begun : List ℕ) → IsBegun self.old begun → IsBegun self.new (begun ++ byte ∷ []) }
    {
        if !self.bytes.is_full() {
            self.bytes.push(byte);
            return;
        }
        self.past = past_after(self.past, byte);
    }

    /// Takes the next bytes, as `push` does one by one.
    pub fn push_all(&mut self, bytes: &[u8])
        ensures { (begun : List ℕ) → IsBegun self.old begun → IsBegun self.new (begun ++ bytes.now) }
    {
        if self.bytes.try_extend_from_slice(bytes).is_ok() {
            return;
        }
        for byte in bytes {
            self.push(*byte);
        }
    }

    /// The line without the carriage return at its end, None where it has more than 200 bytes.
    pub fn text(&self) -> Option<&[u8]>
        ensures { (begun : List ℕ) → IsBegun self.now begun → IsGiven result (without_return begun) }
    {
        match self.past {
            Overrun::More => None,
            Overrun::Return => Some(self.bytes.as_slice()),
            Overrun::Nothing => Some(without_return(self.bytes.as_slice())),
        }
    }
}

/// What `BegunLine::text` gives of a line that has come at once.
pub fn kept_text(line: &[u8]) -> Option<&[u8]>
    ensures { IsGiven result (without_return line.now) }
{
    let text = without_return(line);
    if text.len() > MOST_COMMAND_BYTES {
        None
    } else {
        Some(text)
    }
}

fn past_after(past: Overrun, byte: u8) -> Overrun
    ensures { result ≡ more_past past byte }
{
    match past {
        Overrun::Nothing if byte == b'\r' => Overrun::Return,
        _ => Overrun::More,
    }
}
