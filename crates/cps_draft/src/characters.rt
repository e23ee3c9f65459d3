//! The characters of a word.

/// The characters in the order of their display codes.
static CHARACTERS: [u8; 64] =
    *b":ABCDEFGHIJKLMNOPQRSTUVWXYZ0123456789+-*/()$= ,.#[]%\"_!&'?<>@\\^;";

/// The character that stands for zero bits.
pub const ZERO: u8 = b':';

/// The bits that a character costs which no text has.
const STRANGE: u32 = 10;

/// The characters of a word; of a peripheral processor's, two.
#[derive(Clone, Copy)]
pub struct Characters {
    bytes: [u8; 10],
    count: usize,
}

impl Characters {
    /// The ten characters of a word of the central processor.
    pub fn of_central(word: u64) -> Characters {
        Characters {
            bytes: [
                character(word >> 54),
                character(word >> 48),
                character(word >> 42),
                character(word >> 36),
                character(word >> 30),
                character(word >> 24),
                character(word >> 18),
                character(word >> 12),
                character(word >> 6),
                character(word),
            ],
            count: 10,
        }
    }

    /// The two characters of a word of a peripheral processor.
    pub fn of_peripheral(word: u64) -> Characters {
        let (first, second) = (character(word >> 6), character(word));
        Characters {
            bytes: [
                first, second, ZERO, ZERO, ZERO, ZERO, ZERO, ZERO, ZERO, ZERO,
            ],
            count: 2,
        }
    }

    pub fn all(&self) -> &[u8] {
        self.bytes.get(..self.count).unwrap_or(&self.bytes)
    }

    /// Those in front of the zeros at the end.
    pub fn body(&self) -> &[u8] {
        without_end(self.all(), ZERO)
    }

    /// How many zeros are at the end.
    pub fn zeros(&self) -> usize {
        self.count.saturating_sub(self.body().len())
    }

    /// Whether a text could have them: zeros stand only at the end, and all others are of a text.
    pub fn is_textual(&self) -> bool {
        self.body()
            .iter()
            .all(|byte| *byte != ZERO && character_cost(*byte) < STRANGE)
    }

    /// How many letters there are.
    pub fn letters(&self) -> usize {
        self.all()
            .iter()
            .filter(|byte| byte.is_ascii_uppercase())
            .count()
    }

    /// How many blanks there are in front of the zeros at the end.
    pub fn blanks(&self) -> usize {
        self.body().iter().filter(|byte| **byte == b' ').count()
    }

    /// The bits that they cost as text, without zeros and blanks at the end; None where they are no text.
    pub fn text_cost(&self) -> Option<u32> {
        let body = self.body();
        let text = without_end(body, b' ');
        let is_pair = self.count == 2;
        if body.is_empty() || (is_pair && text.is_empty()) {
            return None;
        }
        let is_ended = body.len() < self.count;
        let mut cost: u32 = if is_ended || is_pair { 3 } else { 1 };
        let mut has_letter = false;
        let mut has_zero = false;
        for byte in text {
            cost = cost.saturating_add(character_cost(*byte));
            has_letter = has_letter || byte.is_ascii_uppercase();
            has_zero = has_zero || *byte == ZERO;
        }
        if text.len() < body.len() {
            cost = cost.saturating_add(2);
        }
        if has_zero || !has_letter {
            cost = cost.saturating_add(if is_pair { 6 } else { 12 });
        }
        Some(cost)
    }
}

/// The character of the low six bits.
fn character(word: u64) -> u8 {
    CHARACTERS[(word & 0o77) as usize]
}

/// A text without the characters of one kind at its end.
pub fn without_end(text: &[u8], end: u8) -> &[u8] {
    match text.iter().rposition(|byte| *byte != end) {
        Some(last) => text.get(..=last).unwrap_or(text),
        None => &[],
    }
}

/// The bits that a character costs as text.
#[inline]
fn character_cost(byte: u8) -> u32 {
    match byte {
        b' ' => 3,
        b'E' | b'A' | b'I' | b'O' | b'T' | b'N' | b'S' | b'R' | b'L' => 4,
        b'A'..=b'Z' | b'.' => 5,
        b'0'..=b'9' | b',' | b'-' | b'/' => 6,
        b'(' | b')' | b'=' | b'*' | b'$' | b'+' => 7,
        b':' | b'\'' | b'"' | b'?' => 8,
        _ => STRANGE,
    }
}
