//! The names of addresses.
use super::coding::Coding;
use super::image::Image;
use super::known_names::KnownNames;
use super::references::{Reference, Use};
use super::told::Told;
use cps_text::push_octal;
use std::alloc::{AllocError, Global};

/// An address and its name.
#[derive(Drop)]
pub struct NamedAddress {
    pub address: u32,
    pub name: Vec<u8>,
    /// Whether no line of the text can have the name as its label.
    pub is_outside: bool,
}

/// The names of addresses.
#[derive(Drop)]
pub struct Names {
    list: Vec<NamedAddress>,
    /// For each word of the image the index of its name in the list.
    of_words: Vec<Option<u32>>,
}

/// What is known of addresses that get names.
#[derive(Clone, Copy)]
pub struct Naming<'a, 'b> {
    pub image: Image<'a>,
    pub coding: &'b Coding,
    pub references: &'b [Reference],
    pub known: &'b KnownNames<'a>,
}

/// The references of an address.
pub fn references_of<'a>(references: &'a [Reference], address: u32) -> &'a [Reference] {
    let first = references.partition_point(|reference| reference.address < address);
    let end = references.partition_point(|reference| reference.address <= address);
    references.get(first..end).unwrap_or(&[])
}

impl Naming<'_, '_> {
    /// The letter with which the name of an address begins: S for a called one, L for code, D for data.
    fn letter(&self, address: u32) -> u8 {
        let first = references_of(self.references, address).first();
        let how = first.map(|reference| reference.how);
        if how == Some(Use::Called) {
            return b'S';
        }
        match self.image.index_of(address) {
            Some(index) if self.coding.is_code(index) => b'L',
            None if how == Some(Use::Reached) && !self.image.has_label(address) => b'L',
            _ => b'D',
        }
    }

    /// The name of an address: the known one, or a letter and octal digits.
    fn name(&self, alloc: Global, address: u32) -> Result<Vec<u8>, AllocError> {
        if let Some(known) = self.known.name(address) {
            return known.to_vec(alloc);
        }
        let made = self.made_name(alloc, address, b"")?;
        if self.known.first_address(&made).is_none() {
            return Ok(made);
        }
        self.made_name(alloc, address, b".")
    }

    fn made_name(
        &self,
        alloc: Global,
        address: u32,
        between: &[u8],
    ) -> Result<Vec<u8>, AllocError> {
        let mut name = Vec::new(alloc);
        name.push(self.letter(address))?;
        name.extend_from_slice(between)?;
        push_octal(&mut name, u64::from(address), self.image.address_digits())?;
        Ok(name)
    }

    /// Whether an address is that of a plain number, which has no name.
    fn is_unnamed(&self, told: &Told, address: u32) -> bool {
        self.image
            .index_of(address)
            .is_some_and(|index| told.is_plain(index))
    }

    /// The names of some addresses, but for plain numbers. They come in any order, each perhaps several times.
    pub fn names(
        &self,
        alloc: Global,
        addresses: Vec<u32>,
        told: &Told,
    ) -> Result<Names, AllocError> {
        let mut sorted = addresses;
        sorted.sort_unstable();
        sorted.dedup();
        let mut list = Vec::new(alloc);
        for address in &sorted {
            if self.is_unnamed(told, *address) {
                continue;
            }
            list.push(NamedAddress {
                address: *address,
                name: self.name(alloc, *address)?,
                is_outside: !self.image.has_label(*address),
            })?;
        }
        let of_words = self.words_names(alloc, &list)?;
        Ok(Names { list, of_words })
    }

    /// For each word the index of its name in a list.
    fn words_names(
        &self,
        alloc: Global,
        list: &[NamedAddress],
    ) -> Result<Vec<Option<u32>>, AllocError> {
        let mut of_words = vec![in alloc; None; self.image.words.len()]?;
        for (at, named) in list.iter().enumerate() {
            if let Some(index) = self.image.index_of(named.address)
                && let Some(of_word) = of_words.get_mut(index)
            {
                *of_word = u32::try_from(at).ok();
            }
        }
        Ok(of_words)
    }
}

impl Names {
    pub fn none(alloc: Global) -> Names {
        Names {
            list: Vec::new(alloc),
            of_words: Vec::new(alloc),
        }
    }

    /// The named address, if an address of an image has a name.
    pub fn find(&self, image: &Image<'_>, address: u32) -> Option<&NamedAddress> {
        match image.index_of(address) {
            Some(index) => self.of_word(index),
            None => self.find_other(address),
        }
    }

    /// The address of a word, if that has a name.
    pub fn of_word(&self, index: usize) -> Option<&NamedAddress> {
        match self.of_words.get(index) {
            Some(Some(at)) => self.list.get(*at as usize),
            _ => None,
        }
    }

    fn find_other(&self, address: u32) -> Option<&NamedAddress> {
        let index = self
            .list
            .binary_search_by_key(&address, |named| named.address)
            .ok()?;
        self.list.get(index)
    }

    /// All of them, by their addresses.
    pub fn all(&self) -> &[NamedAddress] {
        &self.list
    }

    /// Those of addresses from one up to another, which isn't included.
    pub fn between(&self, first: u32, end: u32) -> &[NamedAddress] {
        let start = self.list.partition_point(|named| named.address < first);
        let stop = self.list.partition_point(|named| named.address < end);
        self.list.get(start..stop).unwrap_or(&[])
    }
}
