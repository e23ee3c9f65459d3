//! Which words of data are addresses.
use super::classes::Classes;
use super::image::LOW;
use super::told::{is_set, no_marks, set};
use std::alloc::{AllocError, Global};

/// The addresses that something has or is.
#[derive(Clone, Copy)]
pub struct Aims<'a> {
    /// Those of instructions that can have labels, in their order.
    pub named: &'a [u32],
    /// The words at which something begins.
    pub starts: &'a [bool],
}

/// A number that is as likely a count or a mask as an address.
pub fn is_round(number: u32) -> bool {
    number & number.wrapping_sub(1) == 0
        || number & number.wrapping_add(1) == 0
        || number % 0o1000 == 0
}

impl Aims<'_> {
    /// Whether an instruction has an address.
    pub fn is_named(&self, address: u32) -> bool {
        self.named.binary_search(&address).is_ok()
    }

    /// Whether an instruction has an address, or something begins or ends there.
    pub fn has(&self, classes: &Classes<'_, '_>, address: u32) -> bool {
        if self.is_named(address) || classes.image.is_end(address) {
            return true;
        }
        match classes.image.index_of(address) {
            Some(index) => is_set(self.starts, index),
            None => false,
        }
    }

    /// The address that a word of data is, if it may be one.
    fn aim(&self, classes: &Classes<'_, '_>, index: usize) -> Option<u32> {
        if !classes.is_free(index) {
            return None;
        }
        let address = u32::try_from(classes.image.value(index)).ok()?;
        if address >= LOW && self.has(classes, address) {
            Some(address)
        } else {
            None
        }
    }

    /// Whether the word before or behind a word may be an address too.
    fn is_beside_aim(&self, classes: &Classes<'_, '_>, index: usize) -> bool {
        let before = classes.image.before(index);
        let after = classes.image.after(index);
        before.is_some_and(|it| self.aim(classes, it).is_some())
            || after.is_some_and(|it| self.aim(classes, it).is_some())
    }

    /// The address that a word of data has, all of it or in its low 18 bits.
    pub fn pointer(&self, classes: &Classes<'_, '_>, texts: &[bool], index: usize) -> Option<u32> {
        if classes.image.is_central() {
            self.central_pointer(classes, texts, index)
        } else {
            self.peripheral_pointer(classes, texts, index)
        }
    }

    fn central_pointer(
        &self,
        classes: &Classes<'_, '_>,
        texts: &[bool],
        index: usize,
    ) -> Option<u32> {
        if !classes.is_free(index) || is_set(texts, index) {
            return None;
        }
        if classes.image.value(index) > 0o777777 {
            let low = classes.image.low_address(index);
            if low >= LOW && classes.image.has(low) && self.has(classes, low) {
                return Some(low);
            }
            return None;
        }
        let address = self.aim(classes, index)?;
        if self.is_named(address) || self.is_beside_aim(classes, index) {
            Some(address)
        } else {
            None
        }
    }

    fn peripheral_pointer(
        &self,
        classes: &Classes<'_, '_>,
        texts: &[bool],
        index: usize,
    ) -> Option<u32> {
        let address = self.aim(classes, index)?;
        let is_beside = self.is_beside_aim(classes, index);
        if is_beside || (!is_set(texts, index) && !is_round(address)) {
            Some(address)
        } else {
            None
        }
    }
}

/// Marks the words of data that have an address, and appends these addresses.
pub fn find_pointers(
    alloc: Global,
    classes: &Classes<'_, '_>,
    aims: &Aims<'_>,
    texts: &[bool],
    addresses: &mut Vec<u32>,
) -> Result<Vec<bool>, AllocError> {
    let mut pointers = no_marks(alloc, &classes.image)?;
    for index in 0..classes.image.words.len() {
        if let Some(address) = aims.pointer(classes, texts, index) {
            set(&mut pointers, index);
            addresses.push(address)?;
        }
    }
    Ok(pointers)
}
