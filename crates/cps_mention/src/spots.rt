//! The spots of a meaning.
ghost use Rattle.std.specs.Prelude.{◌≡◌, ◌++◌, Contains, IfOk, OnOk, IsTrue};
ghost use Rattle.std.specs.List.{list_any};
ghost use Rattle.cps_mention.specs.Code.Finding.{stretches_of};
ghost use Rattle.cps_mention.specs.Spots as spots;
ghost use Rattle.cps_mention.specs.Spots.{AreSpots};

use crate::meaning::Meaning;
use crate::mention::Mention;
use crate::spot::{Spot, SpotKind};
use crate::stretch::Stretch;
use cps_state::Hashing;
use indexmap::IndexMap;
use std::alloc::{AllocError, Global};

/// Where each stretch stands in a list of spots.
type Places = IndexMap<Stretch, usize, Hashing>;

/// The spots of a meaning, in the order of the mentions, each stretch once.
pub fn spots_of(
    alloc: Global,
    hashing: Hashing,
    meaning: Meaning,
    mentions: &[Mention],
) -> Result<Vec<Spot>, AllocError>
    ensures { IfOk result (λ found. AreSpots (spots.spots_said meaning mentions.now) found.items) }
{
    let said = spots_said(alloc, meaning, mentions)?;
    each_once(alloc, hashing, &said)
}

/// Those of the spots that define.
pub fn keep_definitions(found: &mut Vec<Spot>)
    ensures { found.new.items ≡ spots.definitions found.old.items }
{
    found.retain(|spot| spot.kind.is_definition());
}

/// Those of the definitions whose values counted; all, where it isn't known which did.
pub fn counted(alloc: Global, from: &[Stretch], found: Vec<Spot>) -> Result<Vec<Spot>, AllocError>
    ensures { IfOk result (λ kept. kept.items ≡ spots.counted from.now found.items) }
{
    let known = known_in(alloc, from, &found)?;
    if known.is_empty() {
        Ok(found)
    } else {
        Ok(known)
    }
}

fn known_in(alloc: Global, from: &[Stretch], found: &[Spot]) -> Result<Vec<Spot>, AllocError>
    ensures { IfOk result (λ kept. kept.items ≡ spots.known from.now found.now) }
{
    let mut known = Vec::new(alloc);
    for spot in found {
        if is_among(spot.stretch, from) {
            known.push(*spot)?;
        }
    }
    Ok(known)
}

fn is_among(stretch: Stretch, others: &[Stretch]) -> bool
    ensures { result ≡ list_any (spots.same_stretch stretch) others.now }
{
    others.iter().any(|other| stretch.equals(*other))
}

/// The spots of the mentions of a meaning.
fn spots_said(
    alloc: Global,
    meaning: Meaning,
    mentions: &[Mention],
) -> Result<Vec<Spot>, AllocError>
    ensures { IfOk result (λ said. said.items ≡ spots.spots_said meaning mentions.now) }
{
    let mut said = Vec::new(alloc);
    for mention in mentions {
        push_meant(&mut said, meaning, mention)?;
    }
    Ok(said)
}

fn push_meant(said: &mut Vec<Spot>, meaning: Meaning, mention: &Mention) -> Result<(), AllocError>
    ensures { OnOk result (said.new.items ≡ said.old.items ++ spots.spots_meant meaning mention.now) }
{
    if meaning.equals(mention.meaning) {
        push_stretches(said, SpotKind::of(mention), &mention.written)?;
    }
    Ok(())
}

fn push_stretches(
    said: &mut Vec<Spot>,
    kind: SpotKind,
    stretches: &[Stretch],
) -> Result<(), AllocError>
    ensures { OnOk result (said.new.items ≡ said.old.items ++ spots.spots_as kind stretches.now) }
{
    for stretch in stretches {
        said.push(Spot {
            stretch: *stretch,
            kind,
        })?;
    }
    Ok(())
}

/// Of spots with one stretch the first.
fn each_once(alloc: Global, hashing: Hashing, said: &[Spot]) -> Result<Vec<Spot>, AllocError>
    ensures { IfOk result (λ found. AreSpots said.now found.items) }
{
    let mut found = Vec::new(alloc);
    let mut places: Places = IndexMap::with_hasher(alloc, hashing);
    for spot in said {
        let place = places.get(&spot.stretch).copied();
        if !stands_at(&found, place, spot.stretch) {
            places.insert(spot.stretch, found.len())?;
            found.push(*spot)?;
        }
    }
    Ok(found)
}

/// Whether a stretch stands at a place in a list of spots.
fn stands_at(found: &[Spot], place: Option<usize>, stretch: Stretch) -> bool
    ensures { IsTrue result → Contains (stretches_of found.now) stretch }
{
    match place {
        Some(place) => place < found.len() && found[place].stretch.equals(stretch),
        None => false,
    }
}
