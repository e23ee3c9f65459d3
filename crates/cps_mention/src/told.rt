//! The mentions of a source as they are found.

use crate::meaning::Meaning;
use crate::mention::Mention;
use crate::role::Role;
use crate::stretch::Stretch;
use crate::written_names::WrittenNames;
use cps_text::Name;
use std::alloc::{AllocError, Global};
use std::collections::{BTreeMap, BTreeSet};

/// Where a name is written, and what it means there.
#[derive(PartialEq, Eq, PartialOrd, Ord, Drop)]
pub struct Place {
    pub written: Vec<Stretch>,
    pub meaning: Meaning,
    pub role: Role,
}

/// Where that was defined whose value counts.
#[derive(Clone, Copy, PartialEq, Eq, PartialOrd, Ord)]
pub enum Origin {
    Here(Stretch),
    /// Where the label of this name is, perhaps in a later line.
    Label(Name),
}

/// What a line did at a place.
#[derive(Clone, Copy)]
pub struct Deed {
    /// The line; None: nothing was done.
    pub by: Option<u32>,
    pub from: Option<Origin>,
}

/// What was done at a place.
#[derive(Drop)]
struct Deeds {
    by: Vec<u32>,
    from: Vec<Origin>,
}

/// The mentions of a source as they are found.
#[derive(Drop)]
pub struct Told {
    alloc: Global,
    places: BTreeMap<Place, Deeds>,
}

impl Deeds {
    /// One more, by the same line or a later one.
    fn add(&mut self, deed: Deed) -> Result<(), AllocError> {
        if let Some(line) = deed.by {
            if self.by.last().copied() != Some(line) {
                self.by.push(line)?;
            }
        }
        if let Some(from) = deed.from {
            if self.from.last().copied() != Some(from) {
                self.from.push(from)?;
            }
        }
        Ok(())
    }
}

impl Told {
    /// Of a source of which nothing is told. Takes no memory.
    pub fn new(alloc: Global) -> Told {
        Told {
            alloc,
            places: BTreeMap::new(alloc),
        }
    }

    /// Tells what a line did at a place.
    pub fn add(&mut self, place: Place, deed: Deed) -> Result<(), AllocError> {
        if let Some(deeds) = self.places.get_mut(&place) {
            return deeds.add(deed);
        }
        let mut deeds = Deeds {
            by: Vec::new(self.alloc),
            from: Vec::new(self.alloc),
        };
        deeds.add(deed)?;
        self.places.insert(place, deeds)?;
        Ok(())
    }

    /// All of them, by their places. A name that nothing done mentions is told only of macros.
    pub fn into_names(
        self,
        labels: &BTreeMap<Name, Stretch>,
        macro_lines: Vec<u32>,
    ) -> Result<WrittenNames, AllocError> {
        let Told { alloc, places } = self;
        let known = known_in(alloc, &places)?;
        let mut names = WrittenNames {
            mentions: Vec::with_capacity(alloc, places.len())?,
            idle: Vec::new(alloc),
            macro_lines,
        };
        for (place, deeds) in places {
            let is_told = place.meaning.is_of_macro() || known.contains(&place.meaning);
            let mention = mention_of(alloc, place, deeds, labels)?;
            if is_told {
                names.mentions.push(mention)?;
            } else {
                names.idle.push(mention)?;
            }
        }
        Ok(names)
    }
}

/// What names mean where something is done.
fn known_in(
    alloc: Global,
    places: &BTreeMap<Place, Deeds>,
) -> Result<BTreeSet<Meaning>, AllocError> {
    let mut known = BTreeSet::new(alloc);
    for (place, deeds) in places.iter() {
        if !deeds.by.is_empty() {
            known.insert(place.meaning)?;
        }
    }
    Ok(known)
}

fn mention_of(
    alloc: Global,
    place: Place,
    deeds: Deeds,
    labels: &BTreeMap<Name, Stretch>,
) -> Result<Mention, AllocError> {
    let Deeds { by, from } = deeds;
    let Place {
        written,
        meaning,
        role,
    } = place;
    let from = definitions_in(alloc, &from, labels)?;
    Ok(Mention {
        written,
        meaning,
        role,
        is_done: !by.is_empty(),
        by,
        from,
    })
}

/// Where that was defined that counted, each once, in the order of the source.
fn definitions_in(
    alloc: Global,
    from: &[Origin],
    labels: &BTreeMap<Name, Stretch>,
) -> Result<Vec<Stretch>, AllocError> {
    let mut found = BTreeSet::new(alloc);
    for origin in from {
        match origin {
            Origin::Here(stretch) => {
                found.insert(*stretch)?;
            }
            Origin::Label(name) => {
                if let Some(stretch) = labels.get(name) {
                    found.insert(*stretch)?;
                }
            }
        }
    }
    let mut definitions = Vec::with_capacity(alloc, found.len())?;
    for stretch in found.iter() {
        definitions.push(*stretch)?;
    }
    Ok(definitions)
}
