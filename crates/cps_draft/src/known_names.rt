//! The names that a person knows.
use super::hints::KnownName;
use std::alloc::{AllocError, Global};

/// A name and its address.
#[derive(Clone, Copy)]
struct Known<'a> {
    name: &'a [u8],
    address: u32,
}

/// The names that a person knows of addresses: one of each.
#[derive(Drop)]
pub struct KnownNames<'a> {
    by_address: Vec<Known<'a>>,
    by_name: Vec<Known<'a>>,
}

impl<'a> KnownNames<'a> {
    /// The first address of each name, and the first name of each address.
    pub fn of(alloc: Global, names: &'a [KnownName]) -> Result<KnownNames<'a>, AllocError> {
        let mut by_name = Vec::new(alloc);
        for known in names {
            if let Ok(address) = u32::try_from(known.value) {
                by_name.push(Known {
                    name: &known.name,
                    address,
                })?;
            }
        }
        let mut by_address = by_name.to_vec(alloc)?;
        by_name.sort_by_key(|known| known.name)?;
        by_address.sort_by_key(|known| known.address)?;
        Ok(KnownNames {
            by_address,
            by_name,
        })
    }

    /// The name of an address.
    pub fn name(&self, address: u32) -> Option<&'a [u8]> {
        let first = self
            .by_address
            .partition_point(|known| known.address < address);
        let known = self.by_address.get(first)?;
        if known.address == address && self.first_address(known.name) == Some(address) {
            Some(known.name)
        } else {
            None
        }
    }

    /// The first address of a name.
    pub fn first_address(&self, name: &[u8]) -> Option<u32> {
        let first = self.by_name.partition_point(|known| known.name < name);
        let known = self.by_name.get(first)?;
        if known.name == name {
            Some(known.address)
        } else {
            None
        }
    }

    /// How many addresses have names.
    pub fn len(&self) -> usize {
        self.by_address.len()
    }

    /// The address of the name at an index.
    pub fn address(&self, index: usize) -> Option<u32> {
        self.by_address.get(index).map(|known| known.address)
    }
}
