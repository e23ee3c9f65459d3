//! Which labels have other final values.
ghost use Rattle.std.specs.Prelude.{◌≡◌, false, true, List, IfOk, IsTrue};
ghost use Rattle.std.specs.List.{list_any};
ghost use Rattle.cps_expr.specs.Value.{same_name};
ghost use Rattle.cps_live.specs.Code.NamesRead.{has_name};
ghost use Rattle.cps_live.specs.Code.Differences.{AreExact, AreKnown, AreSoughtBy, IsListed, PassMarked, PlacesStandIn, marks_of};

use crate::names_read::NamesRead;
use cps_chunk::{KeyFilter, SoughtKeys};
use cps_expr::is_same_name;
use cps_final::{Ends, Naming};
use cps_state::{Hashing, Key};
use cps_text::Name;
use std::alloc::{AllocError, Global};

/// The most changed keys of which each is looked at.
const FEW: usize = 64;

/// Which labels have other final values behind an edit, where all blocks and literals stand where they stood; else no more is known than the final values.
pub struct Differences<'a> {
    ends: Ends<'a>,
    labels: Option<Vec<Name>>,
    /// These labels as keys.
    sought: SoughtKeys,
    /// Whether no line reads one of these labels.
    unread: bool,
}

// Written out: what holds them drops them by a call.
impl Drop for Differences<'_> {
    fn drop(self) {
        let Differences {
            ends: _,
            labels,
            sought,
            unread: _,
        } = self;
        drop(labels);
        drop(sought);
    }
}

impl<'a> Naming for Differences<'a> {
    ghost use Rattle.cps_live.specs.Code.Differences.{passes};

    ghost passes = { passes };

    fn label(&self, name: Name) -> bool {
        match &self.labels {
            Some(labels) => !is_among(labels, name),
            None => self.ends.label(name),
        }
    }

    fn block(&self, name: Option<Name>) -> bool {
        match &self.labels {
            Some(_) => true,
            None => self.ends.block(name),
        }
    }

    fn literal(&self, word: u64) -> bool {
        match &self.labels {
            Some(_) => true,
            None => self.ends.literal(word),
        }
    }
}

impl<'a> Differences<'a> {
    /// Between the final values before an edit and after it, for lines that read none but these symbols.
    pub fn of(
        alloc: Global,
        hashing: Hashing,
        ends: Ends<'a>,
        read: &NamesRead,
    ) -> Result<Differences<'a>, AllocError>
        ensures ends { IfOk result (λ differences. differences.ends ≡ ends.entry) }
        ensures exact { IfOk result AreExact }
        ensures sought { IfOk result (AreSoughtBy hashing) }
        ensures known { IfOk result (AreKnown read.now) }
    {
        if ends.patch.changes.count() > FEW || !places_stand(ends) {
            return Ok(Differences {
                ends,
                labels: None,
                sought: SoughtKeys::new(alloc),
                unread: false,
            });
        }
        let labels = list_labels(alloc, ends)?;
        let sought = seek_all(alloc, hashing, &labels)?;
        let unread = !has_read(read, &labels);
        Ok(Differences {
            ends,
            labels: Some(labels),
            sought,
            unread,
        })
    }

    /// Whether all that the lines name is known to have the same final values.
    pub fn is_none(&self) -> bool
        ensures { result ≡ self.now.unread }
    {
        self.unread
    }

    /// Whether what lines name may have another final value, of whose labels these have all marks.
    pub fn may_have(&self, marks: &KeyFilter) -> bool
        ensures { result ≡ false → PassMarked self.now marks.now }
    {
        match &self.labels {
            Some(_) => self.sought.has_bits_in(marks),
            None => true,
        }
    }
}

/// Labels as keys that are sought.
fn seek_all(alloc: Global, hashing: Hashing, labels: &[Name]) -> Result<SoughtKeys, AllocError>
    ensures { IfOk result (λ sought. sought ≡ marks_of hashing labels.now) }
{
    let mut sought = SoughtKeys::new(alloc);
    for name in labels {
        sought.seek(hashing, Key::Label(*name))?;
    }
    Ok(sought)
}

/// Whether one of some labels is read.
fn has_read(read: &NamesRead, labels: &[Name]) -> bool
    ensures { result ≡ list_any (λ name. has_name read.now name) labels.now }
{
    labels.iter().any(|name| read.has(*name))
}

fn is_among(labels: &[Name], name: Name) -> bool
    ensures { result ≡ list_any (λ other. same_name other name) labels.now }
{
    labels.iter().any(|other| is_same_name(*other, name))
}

/// Whether each block and each literal stands where it stood, by a test that may say no where they do.
fn places_stand(ends: Ends) -> bool
    ensures { IsTrue result → PlacesStandIn ends.entry }
{
    match &ends.patch.storage {
        Some(storage) => storage.places_stand(ends.finals.storage()),
        None => true,
    }
}

/// The changed labels that have another final value.
fn list_labels(alloc: Global, ends: Ends) -> Result<Vec<Name>, AllocError>
    ensures { IfOk result (λ labels. IsListed ends.entry labels.items) }
{
    let mut labels = Vec::new(alloc);
    for i in 0..ends.patch.changes.count() {
        if let Key::Label(name) = ends.patch.changes.key(i) {
            if !ends.label(name) {
                labels.push(name)?;
            }
        }
    }
    Ok(labels)
}
