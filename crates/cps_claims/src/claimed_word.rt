//! The digits that an octal text claims for one word.
ghost use Rattle.std.specs.Prelude.{◌≡◌, true, ◌+◌, ◌<◌, ◌≤◌, length, ◌==◌, ◌&&◌, not, if◌then◌else◌};
ghost use Rattle.cps_claims.specs.Shown.{is_unknown, is_denied};
ghost use Rattle.cps_claims.specs.Code.Slots as slots;

use super::part::is_octal;

/// The most octal digits of a word.
pub const MOST_DIGITS: usize = 20;

/// What is claimed of one digit, as it is told.
#[derive(Clone, Copy)]
pub struct ClaimedDigit {
    /// The first digit that can be read. Else a question mark where a digit can't be read, a blank where none is claimed.
    pub shown: u8,
    /// The first digit that can be read and is another one. A blank where there is none.
    pub again: u8,
}

/// Nothing is claimed of a digit.
const NOTHING: ClaimedDigit = ClaimedDigit {
    shown: b' ',
    again: b' ',
};

impl ClaimedDigit {
    /// One more claim.
    fn with(self, digit: u8) -> ClaimedDigit
        ensures { result ≡ slots.with_digit self digit }
    {
        if is_octal(digit) {
            self.with_known(digit)
        } else if is_octal(self.shown) {
            self
        } else {
            ClaimedDigit {
                shown: b'?',
                again: self.again,
            }
        }
    }

    /// The first claim.
    fn with_first(self, digit: u8) -> ClaimedDigit
        requires { slots.is_free self ≡ true }
        ensures { result ≡ slots.with_digit self digit }
    {
        if is_octal(digit) {
            ClaimedDigit {
                shown: digit,
                again: b' ',
            }
        } else {
            ClaimedDigit {
                shown: b'?',
                again: self.again,
            }
        }
    }

    /// One more digit that can be read.
    fn with_known(self, digit: u8) -> ClaimedDigit
        ensures { result ≡ slots.with_known self digit }
    {
        if !is_octal(self.shown) {
            ClaimedDigit {
                shown: digit,
                again: b' ',
            }
        } else if digit == self.shown || is_octal(self.again) {
            self
        } else {
            ClaimedDigit {
                shown: self.shown,
                again: digit,
            }
        }
    }

    /// Whether no digit is claimed.
    fn is_free(self) -> bool
        ensures { result ≡ slots.is_free self }
    {
        self.shown == b' '
    }

    /// Whether a digit is claimed that can be read.
    pub fn is_known(self) -> bool
        ensures { result ≡ slots.is_known self }
    {
        is_octal(self.shown)
    }

    /// Whether a digit is claimed.
    pub fn is_claimed(self) -> bool
        ensures { result ≡ slots.is_claimed self }
    {
        is_octal(self.shown) || self.shown == b'?'
    }

    /// Whether a digit is claimed that nobody can read.
    pub fn is_unknown(self) -> bool
        ensures { result ≡ is_unknown self }
    {
        self.shown == b'?'
    }

    /// Whether a later row has another digit.
    pub fn is_denied(self) -> bool
        ensures { result ≡ is_denied self }
    {
        is_octal(self.again)
    }

    /// Whether a digit that is claimed isn't the deck's.
    pub fn differs(self, deck: Option<u8>) -> bool
        ensures { result ≡ slots.slot_differs deck self }
    {
        is_octal(self.shown) && (is_octal(self.again) || is_other(deck, self.shown))
    }

    /// Whether a claim tells something of a digit of which nothing was known.
    fn is_new(self, digit: u8) -> bool
        ensures { result ≡ slots.is_new self digit }
    {
        !is_octal(self.shown) && (is_octal(digit) || self.shown != b'?')
    }

    /// Whether a claim is contrary to the first digit that can be read.
    fn is_contrary(self, digit: u8) -> bool
        ensures { result ≡ slots.is_contrary self digit }
    {
        is_octal(self.shown) && is_octal(digit) && digit != self.shown
    }
}

/// What is claimed of a word. Rows count from 1 on; 0 is no row. It takes 64 bytes.
#[derive(Clone, Copy)]
pub struct ClaimedWord {
    pub digits: [ClaimedDigit; MOST_DIGITS],
    /// The first row that claims a digit.
    pub first_row: usize,
    /// The last row that tells something of a digit of which nothing was known.
    pub last_row: usize,
    /// The first row that has a digit another than the first one.
    pub again_row: usize,
}

impl ClaimedWord {
    /// Nothing is claimed.
    pub fn new() -> ClaimedWord
        ensures { result ≡ slots.empty_word }
    {
        ClaimedWord {
            digits: [NOTHING; MOST_DIGITS],
            first_row: 0,
            last_row: 0,
            again_row: 0,
        }
    }

    /// What is claimed of the digit at a place; the first is 0.
    pub fn digit(&self, place: usize) -> ClaimedDigit
        requires { place < MOST_DIGITS }
        ensures { result ≡ (slots.state_of self.now).slots place }
    {
        self.digits[place]
    }

    /// Digits that a row claims, from a place on.
    pub fn put_digits(&mut self, place: usize, digits: &[u8], row: usize)
        requires { place + length digits.now ≤ MOST_DIGITS }
        ensures { slots.state_of self.new ≡ slots.with_digits_here row place digits.now (slots.state_of self.old) }
    {
        for (before, digit) in digits.iter().enumerate() {
            self.put(place + before, *digit, row);
        }
    }

    /// One more claim of a row.
    fn put(&mut self, place: usize, digit: u8, row: usize)
        requires { place < MOST_DIGITS }
        ensures { slots.state_of self.new ≡ slots.with_claim_here (slots.state_of self.old) place digit row }
    {
        if self.digits[place].is_free() {
            self.put_first(place, digit, row);
        } else {
            self.put_again(place, digit, row);
        }
    }

    /// The first claim for a digit.
    fn put_first(&mut self, place: usize, digit: u8, row: usize)
        requires place { place < MOST_DIGITS }
        requires free { slots.is_free ((slots.state_of self.old).slots place) ≡ true }
        ensures { slots.state_of self.new ≡ slots.with_claim_here (slots.state_of self.old) place digit row }
    {
        self.first_row = first_of(self.first_row, row);
        self.last_row = row;
        self.digits[place] = self.digit(place).with_first(digit);
    }

    /// Another claim for a digit.
    fn put_again(&mut self, place: usize, digit: u8, row: usize)
        requires { place < MOST_DIGITS }
        ensures { slots.state_of self.new ≡ slots.with_claim_here (slots.state_of self.old) place digit row }
    {
        let slot = self.digits[place];
        self.first_row = first_of(self.first_row, row);
        self.last_row = row_if(slot.is_new(digit), row, self.last_row);
        self.again_row = row_if(
            slot.is_contrary(digit),
            first_of(self.again_row, row),
            self.again_row,
        );
        self.digits[place] = slot.with(digit);
    }
}

/// The first row, of which 0 is none, and another one.
fn first_of(first: usize, row: usize) -> usize
    ensures { result ≡ (if first == 0 then row else first) }
{
    if first == 0 { row } else { first }
}

fn row_if(test: bool, row: usize, other: usize) -> usize
    ensures { result ≡ (if test then row else other) }
{
    if test { row } else { other }
}

/// Whether a digit isn't the deck's.
fn is_other(deck: Option<u8>, digit: u8) -> bool
    ensures { result ≡ slots.is_other deck digit }
{
    match deck {
        Some(other) => other != digit,
        None => true,
    }
}
