//! The instructions of a word of the central processor.
use super::central::{central_instruction, stranger};
use super::image::{Image, LOW};
use super::instruction::{Flow, Instruction};
use std::alloc::{AllocError, Global};

/// What some parcels are.
#[derive(Clone, Copy)]
pub enum Item {
    Instruction(Instruction),
    /// A code without a form.
    Stranger,
    /// Parcels behind an instruction that forces, which aren't instructions.
    Rest,
}

/// Some parcels of a word.
#[derive(Clone, Copy)]
pub struct Part {
    /// The first of them; that of the word is 0.
    pub place: usize,
    /// How many there are.
    pub size: usize,
    pub item: Item,
}

/// The parts of a word.
#[derive(Clone, Copy)]
pub struct Reading {
    pub parts: [Option<Part>; 4],
    /// How many parcels they have. A forcing leaves the others.
    pub end: usize,
}

/// The instructions of each word of an image of the central processor; those of a peripheral one's aren't read.
pub fn read_words(alloc: Global, image: &Image<'_>) -> Result<Vec<Reading>, AllocError> {
    if !image.is_central() {
        return Ok(Vec::new(alloc));
    }
    let mut readings = Vec::with_capacity(alloc, image.words.len())?;
    for index in 0..image.words.len() {
        readings.push(Reading::of(image, index))?;
    }
    Ok(readings)
}

/// The parcel of a word at a place below 4.
pub fn parcel(word: u64, place: usize) -> u32 {
    let parcel = match place {
        0 => word >> 45,
        1 => word >> 30,
        2 => word >> 15,
        _ => word,
    };
    (parcel & 0o77777) as u32
}

/// A word whose first parcels are given.
#[derive(Clone, Copy)]
struct ReadWord {
    word: u64,
    /// How many parcels are given.
    known: usize,
    /// Where those begin that a forcing leaves.
    end: usize,
    /// Whether its low 18 bits are the address of a word, as compilers put it behind a return jump.
    is_trace: bool,
}

impl ReadWord {
    fn of(image: &Image<'_>, index: usize) -> ReadWord {
        let word = image.value(index);
        let known = image.parcels(index);
        let low = image.low_address(index);
        ReadWord {
            word,
            known,
            end: filled_parcels(word, known),
            is_trace: known == 4 && low >= LOW && image.has(low),
        }
    }

    fn parcel(&self, place: usize) -> u32 {
        parcel(self.word, place)
    }

    /// The instruction that begins at a place.
    fn instruction(&self, place: usize) -> Option<Instruction> {
        let behind = place.saturating_add(1);
        let next = if behind < self.known {
            Some(self.parcel(behind))
        } else {
            None
        };
        central_instruction(self.parcel(place), next)
    }

    /// What begins at a place, where nothing forces.
    fn part(&self, place: usize) -> Part {
        match self.instruction(place) {
            Some(instruction) => Part {
                place,
                size: instruction.size,
                item: Item::Instruction(instruction),
            },
            None => Part {
                place,
                size: self.stranger_size(place),
                item: Item::Stranger,
            },
        }
    }

    /// The parcels of a code without a form.
    fn stranger_size(&self, place: usize) -> usize {
        let is_long = matches!(stranger(self.parcel(place)), b"RE" | b"WE" | b"XJ");
        if is_long && place.saturating_add(1) < self.known {
            2
        } else {
            1
        }
    }

    /// Whether instructions stand behind one that forces: all decode, they aren't zero, and they are no trace.
    fn goes_on(&self, place: usize, forcing: Flow) -> bool {
        if forcing == Flow::Call && place == 2 && self.is_trace {
            return false;
        }
        (place..self.known).any(|at| self.parcel(at) != 0) && self.all_decode(place)
    }

    /// Whether each parcel from a place on belongs to an instruction.
    fn all_decode(&self, place: usize) -> bool {
        let mut at = place;
        for _ in 0..4 {
            if at >= self.end {
                break;
            }
            match self.instruction(at) {
                Some(instruction) => at = at.saturating_add(instruction.size),
                None => return false,
            }
        }
        true
    }
}

/// How many parcels of those given a word has without the 46000 at the end; the first always counts.
fn filled_parcels(word: u64, known: usize) -> usize {
    let mut end = known;
    for _ in 0..4 {
        if end < 2 || parcel(word, end - 1) != 0o46000 {
            break;
        }
        end -= 1;
    }
    end
}

impl Reading {
    /// The parts of a word of the central processor.
    fn of(image: &Image<'_>, index: usize) -> Reading {
        let mut read = ReadWord::of(image, index);
        let mut parts = [None; 4];
        let mut place = 0;
        let mut forcing = None;
        for slot in 0..4 {
            if place >= read.end {
                break;
            }
            let part = next_part(&read, place, forcing);
            place = place.saturating_add(part.size);
            read.end = read.end.max(place);
            forcing = part.forcing();
            parts[slot] = Some(part);
        }
        Reading {
            parts,
            end: read.end,
        }
    }

    fn part(&self, number: usize) -> Option<&Part> {
        match self.parts.get(number) {
            Some(Some(part)) => Some(part),
            _ => None,
        }
    }

    /// The word, behind a return jump, by which it is known where that was: the low 18 bits are an address.
    pub fn is_trace(&self) -> bool {
        let (Some(first), Some(second), None) = (self.part(0), self.part(1), self.part(2)) else {
            return false;
        };
        let is_call = first.instruction().is_some_and(|it| it.is_return_jump());
        is_call && second.size == 2 && matches!(second.item, Item::Rest)
    }
}

/// What begins at a place, behind an instruction that forces, or behind none.
fn next_part(read: &ReadWord, place: usize, forcing: Option<Flow>) -> Part {
    if let Some(forcing) = forcing
        && !read.goes_on(place, forcing)
    {
        return Part {
            place,
            size: read.known.saturating_sub(place),
            item: Item::Rest,
        };
    }
    read.part(place)
}

impl Part {
    /// The instruction, if it is one.
    pub fn instruction(&self) -> Option<&Instruction> {
        match &self.item {
            Item::Instruction(instruction) => Some(instruction),
            _ => None,
        }
    }

    /// Where execution goes on behind an instruction that forces what is behind it to the next word.
    fn forcing(&self) -> Option<Flow> {
        let instruction = self.instruction()?;
        if instruction.is_forcing() {
            Some(instruction.flow)
        } else {
            None
        }
    }

    /// The bits of the parcels.
    pub fn bits(&self) -> u8 {
        match self.size {
            0 => 0,
            1 => 15,
            2 => 30,
            3 => 45,
            _ => 60,
        }
    }

    /// The parcels as a number.
    pub fn digits(&self, word: u64) -> u64 {
        match (self.place, self.size) {
            (0, 1) => (word >> 45) & 0o77777,
            (0, 2) => (word >> 30) & 0o7777777777,
            (1, 1) => (word >> 30) & 0o77777,
            (1, 2) => (word >> 15) & 0o7777777777,
            (1, _) => word & 0o777777777777777,
            (2, 1) => (word >> 15) & 0o77777,
            (2, _) => word & 0o7777777777,
            (3, _) => word & 0o77777,
            _ => word,
        }
    }
}
