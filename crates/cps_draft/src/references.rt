//! The addresses that instructions have.
use super::coding::Coding;
use super::image::{Image, LOW};
use super::instruction::{Flow, Instruction, Role};
use super::peripheral::peripheral_at;
use std::alloc::{AllocError, Global};

/// How an address is used, the most telling use first.
#[derive(Clone, Copy, PartialEq, Eq, PartialOrd, Ord)]
pub enum Use {
    /// It is called.
    Called,
    /// It is jumped to.
    Reached,
    /// It is a word that is read or written, and nothing is added to it.
    Cell,
    /// The same with something added.
    Table,
    /// It is a number.
    Value,
    /// It stands behind a call, which tells where that was.
    Trace,
}

/// An address that an instruction has.
#[derive(Clone, Copy)]
pub struct Reference {
    pub address: u32,
    pub how: Use,
    /// The address of the instruction.
    pub from: u32,
}

/// The addresses that instructions have, in their order, and for each by how telling its uses are.
pub fn find_references(
    alloc: Global,
    image: &Image<'_>,
    coding: &Coding,
) -> Result<Vec<Reference>, AllocError> {
    let mut found = Vec::new(alloc);
    for index in 0..image.words.len() {
        if coding.begins(index) {
            push_references(image, coding, index, &mut found)?;
        }
    }
    found.sort_by_key(|reference| (reference.address, reference.how))?;
    Ok(found)
}

/// Appends the references of the code that begins at a word.
fn push_references(
    image: &Image<'_>,
    coding: &Coding,
    index: usize,
    found: &mut Vec<Reference>,
) -> Result<(), AllocError> {
    let from = image.address(index);
    if !image.is_central() {
        let next = if coding.size(index) == 2 {
            image.after(index)
        } else {
            None
        };
        if let Some(instruction) = peripheral_at(image, index, next) {
            push_reference(&instruction, from, found)?;
        }
        return Ok(());
    }
    let Some(reading) = image.reading(index) else {
        return Ok(());
    };
    for slot in &reading.parts {
        let Some(part) = slot else {
            break;
        };
        if let Some(instruction) = part.instruction() {
            push_reference(instruction, from, found)?;
        }
    }
    let address = image.low_address(index);
    if reading.is_trace() && address >= LOW && image.has(address) {
        found.push(Reference {
            address,
            how: Use::Trace,
            from,
        })?;
    }
    Ok(())
}

/// Appends the address of an instruction, if it may be one of the text.
fn push_reference(
    instruction: &Instruction,
    from: u32,
    found: &mut Vec<Reference>,
) -> Result<(), AllocError> {
    if let (Some(address), Some(how)) = (instruction.address, use_of(instruction)) {
        found.push(Reference { address, how, from })?;
    }
    Ok(())
}

/// How an instruction uses its address.
fn use_of(instruction: &Instruction) -> Option<Use> {
    if instruction.is_displaced() {
        return None;
    }
    match instruction.role {
        Role::Jump if instruction.flow == Flow::Call => Some(Use::Called),
        Role::Jump => Some(Use::Reached),
        Role::Cell if instruction.is_beside => Some(Use::Table),
        Role::Cell => Some(Use::Cell),
        Role::Value if !instruction.is_beside => Some(Use::Value),
        _ => None,
    }
}
