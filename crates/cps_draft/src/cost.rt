//! What words cost as code and as data, in bits: the less they cost, the likelier they are it.
use super::central::stranger;
use super::image::{Image, LOW};
use super::instruction::{Instruction, Role};
use super::peripheral::peripheral_at;
use super::reading::{Item, Part, parcel};

/// What a word costs as code.
#[derive(Clone, Copy)]
pub struct CodeCost {
    pub bits: u32,
    /// How many words the code has.
    pub size: usize,
    /// Whether execution goes on behind it.
    pub goes_on: bool,
}

/// The costs of the words of an image.
#[derive(Clone, Copy)]
pub struct Costs<'a> {
    pub image: Image<'a>,
    /// The bits that tell one word of the image from the others.
    choice: u32,
}

impl<'a> Costs<'a> {
    pub fn of(image: Image<'a>) -> Costs<'a> {
        Costs {
            image,
            choice: bit_length(image.words.len() as u64).max(4),
        }
    }

    /// The bits of the address, K or m, of an instruction at an address.
    fn address_cost(&self, instruction: &Instruction, at: u32) -> u32 {
        let Some(address) = instruction.address else {
            return 0;
        };
        if !self.image.is_central() && instruction.size == 1 {
            return self.short_cost(instruction, address);
        }
        let near = self.choice.saturating_add(1);
        let all: u32 = if self.image.is_central() { 18 } else { 12 };
        let has = self.image.has(address);
        if instruction.role == Role::Jump {
            return match (has, address < self.image.limit()) {
                (true, _) => near.min(distance_cost(address.abs_diff(at))),
                (false, true) => all.saturating_add(2),
                (false, false) => all.saturating_add(8),
            };
        }
        if has && address >= LOW {
            near
        } else if address < LOW || address > 0o777700 {
            8
        } else {
            all.saturating_add(1)
        }
    }

    /// The bits of the target of a peripheral processor's short jump. Other operands of one word cost nothing.
    fn short_cost(&self, instruction: &Instruction, address: u32) -> u32 {
        if instruction.role == Role::Jump && !self.image.stands(address) {
            6
        } else {
            0
        }
    }

    /// What the code costs that begins at a word, before another word that may belong to it. None where it can't be code.
    pub fn code_cost(&self, index: usize, next: Option<usize>) -> Option<CodeCost> {
        if self.image.is_central() {
            self.central_cost(index)
        } else {
            self.peripheral_cost(index, next)
        }
    }

    fn peripheral_cost(&self, index: usize, next: Option<usize>) -> Option<CodeCost> {
        let instruction = peripheral_at(&self.image, index, next)?;
        let at = self.image.address(index);
        Some(CodeCost {
            bits: instruction
                .cost
                .saturating_add(self.address_cost(&instruction, at)),
            size: instruction.size,
            goes_on: instruction.goes_on(),
        })
    }

    fn central_cost(&self, index: usize) -> Option<CodeCost> {
        if !self.image.has_whole_parcels(index) {
            return None;
        }
        if self.image.is_whole(index) && self.image.value(index) == 0 {
            return Some(CodeCost {
                bits: 5,
                size: 1,
                goes_on: false,
            });
        }
        let reading = self.image.reading(index)?;
        let forced = if reading.end < self.image.parcels(index) {
            2
        } else {
            0
        };
        let mut cost = CodeCost {
            bits: forced,
            size: 1,
            goes_on: true,
        };
        let mut before = None;
        for slot in &reading.parts {
            let Some(part) = slot else {
                break;
            };
            cost.bits = cost
                .bits
                .saturating_add(self.part_cost(index, part, before));
            before = part.instruction();
            cost.goes_on = cost.goes_on && before.is_none_or(|it| it.goes_on());
        }
        Some(cost)
    }

    /// The bits of some parcels behind an instruction, or behind none.
    fn part_cost(&self, index: usize, part: &Part, before: Option<&Instruction>) -> u32 {
        let word = self.image.value(index);
        let bits = u32::from(part.bits());
        match &part.item {
            Item::Instruction(instruction) => {
                let forced = before.is_some_and(|it| it.is_forcing());
                let at = self.image.address(index);
                instruction
                    .cost
                    .saturating_add(self.address_cost(instruction, at))
                    .saturating_add(if forced { 12 } else { 0 })
            }
            Item::Stranger if stranger(parcel(word, part.place)).is_empty() => {
                bits.saturating_add(22)
            }
            Item::Stranger => bits.saturating_add(4),
            Item::Rest => self.rest_cost(part, part.digits(word), before),
        }
    }

    /// The bits of what stands behind an instruction that forces, if it is no instruction.
    fn rest_cost(&self, part: &Part, rest: u64, before: Option<&Instruction>) -> u32 {
        let other = u32::from(part.bits()).saturating_add(4);
        let Some(before) = before else {
            return other;
        };
        if before.is_return_jump() && part.size == 2 {
            return if rest == 0 { 3 } else { self.trace_cost(rest) };
        }
        if part.place == 2 && matches!(before.operation, b"EQ" | b"JP") {
            return if rest == 0 { 6 } else { 30 };
        }
        other
    }

    fn trace_cost(&self, rest: u64) -> u32 {
        if self.image.stands((rest & 0o777777) as u32) {
            self.choice.saturating_add(14)
        } else {
            32
        }
    }

    /// What a word costs as data: the least of several ways.
    pub fn data_cost(&self, index: usize) -> u32 {
        let is_central = self.image.is_central();
        let Some(given) = self.image.words.get(index) else {
            return 0;
        };
        if !self.image.is_whole(index) {
            return u32::from(given.digits).saturating_mul(3).saturating_add(2);
        }
        let word = self.image.value(index);
        if word == 0 {
            return if is_central { 4 } else { 3 };
        }
        let all: u32 = if is_central { 60 } else { 12 };
        all.saturating_add(1)
            .min(self.repeated_cost(index))
            .min(number_cost(word, all))
            .min(digits_cost(word, self.image.word_digits()))
            .min(self.pointer_cost(word))
            .min(self.text_cost(index))
    }

    /// The bits of a word that repeats the one before it, or goes on a sequence.
    fn repeated_cost(&self, index: usize) -> u32 {
        let extra: u32 = if self.image.is_central() { 2 } else { 0 };
        let Some(before) = self.image.before(index) else {
            return u32::MAX;
        };
        let (word, last) = (self.image.value(index), self.image.value(before));
        if word == last {
            return extra.saturating_add(5);
        }
        let Some(earlier) = self.image.before(before) else {
            return u32::MAX;
        };
        if word.wrapping_sub(last) == last.wrapping_sub(self.image.value(earlier)) {
            extra.saturating_add(7)
        } else {
            u32::MAX
        }
    }

    /// The bits of an address of a word.
    fn pointer_cost(&self, word: u64) -> u32 {
        match u32::try_from(word) {
            Ok(address) if self.image.is_central() && address >= LOW && self.image.has(address) => {
                self.choice.saturating_add(8)
            }
            _ => u32::MAX,
        }
    }

    fn text_cost(&self, index: usize) -> u32 {
        let extra = if self.image.is_central() { 5 } else { 0 };
        match self.image.characters(index).text_cost() {
            Some(cost) => cost.saturating_add(extra),
            None => u32::MAX,
        }
    }
}

/// How many bits a number has.
fn bit_length(number: u64) -> u32 {
    match number.checked_ilog2() {
        Some(log) => log.saturating_add(1),
        None => 0,
    }
}

/// The bits of a jump over so many words.
fn distance_cost(distance: u32) -> u32 {
    bit_length(u64::from(distance))
        .saturating_mul(2)
        .saturating_add(4)
}

/// The bits of a small number, or of its complement.
fn number_cost(word: u64, bits: u32) -> u32 {
    let ones: u64 = if bits == 60 { (1 << 60) - 1 } else { 0o7777 };
    bit_length(word.min(ones.saturating_sub(word))).saturating_add(8)
}

/// The lowest bit of each digit of a word but the first.
const LOWEST_BITS: u64 = 0o1111111111111111111;

/// The bits of a word's digits, where most are the one before.
fn digits_cost(word: u64, digits: u8) -> u32 {
    let changed = word ^ (word >> 3);
    let changes = (changed | (changed >> 1) | (changed >> 2))
        & (LOWEST_BITS >> (3 * (20 - u32::from(digits.min(20)))));
    u32::from(digits)
        .saturating_add(7)
        .saturating_add(changes.count_ones().saturating_mul(3))
}
