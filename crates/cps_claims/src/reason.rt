//! Why a row of an octal text isn't read.
ghost use Rattle.std.specs.Prelude.{◌≡◌};
ghost use Rattle.cps_claims.specs.Reasons.{reason_text, words_text};

use std::fmt;

/// Why a row isn't read.
#[derive(Clone, Copy, Debug, PartialEq, Eq)]
pub enum UnreadReason {
    /// A part looks like digits, but has other characters.
    DamagedDigits,
    /// The first group of digits that isn't whole parcels has so many.
    GroupOf(usize),
    /// The row has digits but no address, and goes on nowhere.
    NoAddress,
    /// The row goes on behind one that isn't read.
    BehindUnread,
    /// The row's words reach past the addresses 0 to 777777, in octal.
    NoSuchAddress,
    /// The row of a dump has a part of a word.
    NoWholeWords,
    /// Words stand again, but no row above is read or the row behind has no address.
    EndlessRepetition,
    /// Words stand again, but as often as they do they don't end before the address of the row behind.
    UnevenRepetition,
    /// More than 262,144 words would stand again in all.
    TooManyRepetitions,
}

/// The words for a reason.
#[derive(Clone, Copy)]
pub struct ReasonWords {
    /// What is said first.
    pub before: &'static str,
    /// The digits of a group. Their number is said behind that, in decimal, and then ` digits`.
    pub digits: Option<usize>,
}

impl UnreadReason {
    /// The words that say why.
    pub fn words(self) -> ReasonWords
        ensures { words_text result ≡ reason_text self }
    {
        match self {
            UnreadReason::DamagedDigits => ReasonWords::of("damaged digits"),
            UnreadReason::GroupOf(count) => ReasonWords {
                before: "a group of ",
                digits: Some(count),
            },
            UnreadReason::NoAddress => ReasonWords::of("no address"),
            UnreadReason::BehindUnread => ReasonWords::of("behind a row that isn't read"),
            UnreadReason::NoSuchAddress => ReasonWords::of("no such address"),
            UnreadReason::NoWholeWords => ReasonWords::of("no whole words"),
            UnreadReason::EndlessRepetition => ReasonWords::of("a repetition without an end"),
            UnreadReason::UnevenRepetition => ReasonWords::of(
                "a repetition that doesn't come out even",
            ),
            UnreadReason::TooManyRepetitions => ReasonWords::of("too many repetitions"),
        }
    }
}

impl ReasonWords {
    /// Words without a number.
    fn of(before: &'static str) -> ReasonWords
        ensures { words_text result ≡ before.now }
    {
        ReasonWords {
            before,
            digits: None,
        }
    }
}

impl fmt::Display for UnreadReason {
    ghost use Rattle.std.specs.Prelude.{Some};
    ghost use Rattle.cps_claims.specs.Reasons.{reason_text};

    ghost output = { λ reason. Some (reason_text reason) };

    fn fmt<W: fmt::Write>(&self, f: &mut fmt::Formatter<W>) -> fmt::Result {
        let words = self.words();
        match words.digits {
            Some(count) => write!(f, "{}{count} digits", words.before),
            None => f.write_str(words.before),
        }
    }
}
