//! Where execution goes.
use super::central::stranger;
use super::coding::Coding;
use super::image::Image;
use super::instruction::{Flow, Instruction};
use super::peripheral::peripheral_at;
use super::reading::{Item, Part, Reading, parcel};
use super::told::{Told, is_set, no_marks, set};
use std::alloc::{AllocError, Global};

/// The most addresses to which the jumps of a word go.
const MOST_TARGETS: usize = 2;

/// The addresses to which the jumps of a word go.
#[derive(Clone, Copy)]
struct Targets {
    first: Option<u32>,
    second: Option<u32>,
}

impl Targets {
    /// None.
    fn new() -> Targets {
        Targets {
            first: None,
            second: None,
        }
    }

    /// These, and one more behind them.
    fn with(self, target: Option<u32>) -> Targets {
        if self.first.is_none() {
            return Targets {
                first: target,
                second: None,
            };
        }
        Targets {
            first: self.first,
            second: target,
        }
    }
}

/// What is executed at a word.
#[derive(Clone, Copy)]
struct Executed {
    /// How many words the code has.
    size: usize,
    /// Whether execution goes on behind it.
    goes_on: bool,
    targets: Targets,
}

/// Code is followed over an image.
#[derive(Clone, Copy)]
pub struct Control<'a, 'b> {
    pub image: Image<'a>,
    pub told: &'b Told,
}

impl Control<'_, '_> {
    /// What is executed at a word. None where it can't be executed.
    fn executed(&self, index: usize) -> Option<Executed> {
        if self.told.is_data(index) {
            return None;
        }
        if !self.image.is_central() {
            let instruction = peripheral_at(
                &self.image,
                index,
                self.told.second(&self.image, index),
            )?;
            return Some(Executed {
                size: instruction.size,
                goes_on: instruction.goes_on(),
                targets: Targets::new().with(target_of(&instruction)),
            });
        }
        if !self.image.has_whole_parcels(index) {
            return None;
        }
        if self.image.value(index) == 0 {
            return Some(Executed {
                size: 1,
                goes_on: false,
                targets: Targets::new(),
            });
        }
        executed_word(self.image.reading(index)?, self.image.value(index))
    }

    /// Whether execution goes on behind the code that begins at a word.
    pub fn falls(&self, index: usize) -> bool {
        self.executed(index).is_some_and(|word| word.goes_on)
    }

    /// Marks the words from which execution comes to a stop, or to what is code.
    fn ending(&self, alloc: Global, coding: &Coding) -> Result<Vec<bool>, AllocError> {
        let mut marks = no_marks(alloc, &self.image)?;
        for index in (0..self.image.words.len()).rev() {
            if coding.begins(index) || self.ends(index, &marks) {
                set(&mut marks, index);
            }
        }
        Ok(marks)
    }

    /// Whether execution comes from a word to a stop, where that is marked of the words behind it.
    fn ends(&self, index: usize, marks: &[bool]) -> bool {
        let Some(word) = self.executed(index) else {
            return false;
        };
        if !word.goes_on {
            return true;
        }
        match self.behind(index, word.size) {
            Some(next) => is_set(marks, next),
            None => false,
        }
    }

    /// The index of the word behind one or two words.
    fn behind(&self, index: usize, size: usize) -> Option<usize> {
        let next = self.image.after(index)?;
        if size == 2 {
            self.image.after(next)
        } else {
            Some(next)
        }
    }

    /// Makes code of all that is reached from where a person said that execution begins.
    pub fn follow_entries(
        &self,
        alloc: Global,
        entries: &[u32],
        coding: &mut Coding,
    ) -> Result<(), AllocError> {
        let all = vec![in alloc; true; self.image.words.len()]?;
        let mut walk = Walk::from(alloc, *self, all)?;
        walk.rest.extend_from_slice(entries)?;
        walk.follow(coding)
    }

    /// Makes code of what is reached from code, if execution comes to a stop there.
    pub fn follow_code(&self, alloc: Global, coding: &mut Coding) -> Result<(), AllocError> {
        let ending = self.ending(alloc, coding)?;
        let mut walk = Walk::from(alloc, *self, ending)?;
        for index in (0..self.image.words.len()).rev() {
            if coding.begins(index) {
                walk.rest.push(self.image.address(index))?;
            }
        }
        walk.follow(coding)
    }
}

/// A walk along the ways of execution.
#[derive(Drop)]
struct Walk<'a, 'b> {
    control: Control<'a, 'b>,
    /// The words that may be made code.
    may: Vec<bool>,
    followed: Vec<bool>,
    /// Addresses that are still to be followed.
    rest: Vec<u32>,
}

impl<'a, 'b> Walk<'a, 'b> {
    fn from(
        alloc: Global,
        control: Control<'a, 'b>,
        may: Vec<bool>,
    ) -> Result<Walk<'a, 'b>, AllocError> {
        Ok(Walk {
            control,
            may,
            followed: no_marks(alloc, &control.image)?,
            rest: Vec::new(alloc),
        })
    }

    /// Makes code of what is reached. Each word is followed once, and has two targets at most.
    fn follow(&mut self, coding: &mut Coding) -> Result<(), AllocError> {
        let words = self.control.image.words.len();
        let rounds = self
            .rest
            .len()
            .saturating_add(words.saturating_mul(MOST_TARGETS));
        for _ in 0..rounds {
            let Some(address) = self.rest.pop() else {
                break;
            };
            if let Some(index) = self.control.image.index_of(address) {
                self.follow_from(index, coding)?;
            }
        }
        Ok(())
    }

    /// Makes code of a word and those behind it, up to a stop or to what was followed.
    fn follow_from(&mut self, first: usize, coding: &mut Coding) -> Result<(), AllocError> {
        let mut next = Some(first);
        for _ in 0..self.control.image.words.len() {
            let Some(index) = next else {
                break;
            };
            next = self.follow_word(index, coding)?;
        }
        Ok(())
    }

    /// One more address that is to be followed.
    fn push(&mut self, target: Option<u32>) -> Result<(), AllocError> {
        if let Some(address) = target {
            self.rest.push(address)?;
        }
        Ok(())
    }

    /// Makes code of a word. The word at which execution goes on behind it.
    fn follow_word(
        &mut self,
        index: usize,
        coding: &mut Coding,
    ) -> Result<Option<usize>, AllocError> {
        if is_set(&self.followed, index) || coding.is_second(index) {
            return Ok(None);
        }
        if !coding.begins(index) && !is_set(&self.may, index) {
            return Ok(None);
        }
        let Some(word) = self.control.executed(index) else {
            return Ok(None);
        };
        if word.size == 2 && coding.begins(index.saturating_add(1)) {
            return Ok(None);
        }
        set(&mut self.followed, index);
        coding.put(index, word.size);
        self.push(word.targets.second)?;
        self.push(word.targets.first)?;
        if !word.goes_on {
            return Ok(None);
        }
        Ok(self.control.behind(index, word.size))
    }
}

/// The address to which an instruction may go. Behind a called one is the word where it returns.
fn target_of(instruction: &Instruction) -> Option<u32> {
    let address = instruction.target()?;
    if instruction.flow == Flow::Call {
        address.checked_add(1)
    } else {
        Some(address)
    }
}

/// What is executed of a word of the central processor. None where a code has no form on any machine.
fn executed_word(reading: &Reading, word: u64) -> Option<Executed> {
    let mut targets = Targets::new();
    let mut goes_on = true;
    for slot in &reading.parts {
        let Some(part) = slot else {
            break;
        };
        if is_unknown(part, word) {
            return None;
        }
        if let Some(instruction) = part.instruction() {
            targets = targets.with(target_of(instruction));
            goes_on = instruction.goes_on();
        }
        if !goes_on {
            break;
        }
    }
    Some(Executed {
        size: 1,
        goes_on,
        targets,
    })
}

fn is_unknown(part: &Part, word: u64) -> bool {
    matches!(part.item, Item::Stranger) && stranger(parcel(word, part.place)).is_empty()
}
