//! Whether a source's names mean the same after a rename. Beside the certificate this sees lines that are skipped and bodies that nothing opens.

use crate::meaning::Meaning;
use crate::mention::Mention;
use crate::name_place::{column_in, line_of};
use crate::renaming::Renaming;
use crate::stretch::Stretch;
use std::alloc::{AllocError, Global};
use std::collections::{BTreeMap, BTreeSet};

/// How many other places come before each place where a name or a part of one begins.
#[derive(Drop)]
struct Ranks {
    /// By the first column of each.
    ranks: BTreeMap<Stretch, usize>,
}

/// The names of a source before and after a rename.
#[derive(Clone, Copy)]
struct Namings<'a> {
    was: &'a Ranks,
    is: &'a Ranks,
    renamed: Option<Renamed>,
}

/// What is called otherwise, and what it is then.
#[derive(Clone, Copy)]
struct Renamed {
    from: Meaning,
    to: Meaning,
}

/// The first line whose names mean something else after a rename, or, where none is told, after blanks change, apart from their columns. None: all mean the same.
pub fn line_named_otherwise(
    alloc: Global,
    before: &[Mention],
    after: &[Mention],
    renaming: Option<Renaming<'_>>,
) -> Result<Option<u32>, AllocError> {
    let was = Ranks::of(alloc, before)?;
    let is = Ranks::of(alloc, after)?;
    let namings = Namings {
        was: &was,
        is: &is,
        renamed: renaming.and_then(|renaming| Renamed::by(renaming)),
    };
    for (at, mention) in before.iter().enumerate() {
        match after.get(at) {
            Some(other) if namings.agree(mention, other) => {}
            _ => return Ok(Some(line_of(mention))),
        }
    }
    Ok(match after.get(before.len()) {
        Some(mention) => Some(line_of(mention)),
        None => None,
    })
}

impl Renamed {
    fn by(renaming: Renaming<'_>) -> Option<Renamed> {
        let to = renaming.new_meaning()?;
        Some(Renamed {
            from: renaming.meaning,
            to,
        })
    }
}

impl Ranks {
    /// Of mentions.
    fn of(alloc: Global, mentions: &[Mention]) -> Result<Ranks, AllocError> {
        let mut places = BTreeSet::new(alloc);
        for mention in mentions {
            for stretch in mention.written.as_slice() {
                places.insert(column_in(stretch.line, stretch.first))?;
            }
        }
        let mut ranks = BTreeMap::new(alloc);
        for (rank, place) in places.iter().enumerate() {
            ranks.insert(*place, rank)?;
        }
        Ok(Ranks { ranks })
    }

    fn rank(&self, stretch: Stretch) -> Option<usize> {
        self.ranks
            .get(&column_in(stretch.line, stretch.first))
            .copied()
    }
}

impl<'a> Namings<'a> {
    /// Whether a mention says the same as another after the rename.
    fn agree(&self, was: &Mention, is: &Mention) -> bool {
        is.meaning == self.new_meaning(was.meaning)
            && is.role == was.role
            && is.is_done == was.is_done
            && is.by.as_slice() == was.by.as_slice()
            && self.have_same_places(&was.written, &is.written)
            && have_same_lines(&was.from, &is.from)
    }

    fn new_meaning(&self, was: Meaning) -> Meaning {
        match self.renamed {
            Some(renamed) if was == renamed.from => renamed.to,
            _ => was,
        }
    }

    fn have_same_places(&self, was: &[Stretch], is: &[Stretch]) -> bool {
        have_same_lines(was, is)
            && was
                .iter()
                .zip(is.iter())
                .all(|(was, is)| self.was.rank(*was) == self.is.rank(*is))
    }
}

fn have_same_lines(was: &[Stretch], is: &[Stretch]) -> bool {
    was.len() == is.len()
        && was
            .iter()
            .zip(is.iter())
            .all(|(was, is)| was.line == is.line)
}
