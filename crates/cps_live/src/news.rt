//! What a pass makes anew.
ghost use Rattle.std.specs.Prelude.{◌≡◌, ◌+◌, ◌-◌, ◌<◌, ◌≤◌, ◌^◌, IfOk, map, vec_len, vec_capacity};
ghost use Rattle.cps_chunk.specs.Sparse.{AreWithin, renewed};
ghost use Rattle.cps_live.specs.Code.Editing.{put_between};
ghost use Rattle.cps_live.specs.Code.Redone as redone;

use crate::lists::put_at;
use cps_chunk::{SparseItem, put_all};
use std::alloc::{AllocError, Global};

/// What a pass makes of an edit: of the new lines, and of others, each at the place that it had.
#[derive(Drop)]
pub struct News<T> {
    pub entered: Vec<T>,
    pub renewed: Vec<SparseItem<T>>,
}

impl<T: Drop> News<T> {
    /// Puts all of it in its place in a list: what is of the new lines, in the place of the items after the first `keep` up to the first `from`.
    pub fn put(self, items: &mut Vec<T>, keep: usize, from: usize)
        requires ordered { keep ≤ from }
        requires within { from ≤ vec_len items.old }
        requires places { AreWithin 0 (vec_len items.old) self.renewed.items }
        requires room { vec_len items.old + vec_len self.entered ≤ vec_capacity items.old + (from - keep) }
        ensures { items.new.items ≡ put_between keep from self.entered.items (renewed 0 self.renewed.items items.old.items) }
    {
        let News { entered, renewed } = self;
        put_all(items, renewed);
        put_at(items, keep, from, entered);
    }

    /// Where the lines that were there before come to stand, with what is of the new ones in the place of those after the first `keep` up to the first `from`.
    pub fn places(&self, alloc: Global, keep: usize, from: usize) -> Result<Vec<usize>, AllocError>
        requires places { AreWithin 0 (2 ^ 63) self.now.renewed.items }
        requires few { keep + vec_len self.now.entered < 2 ^ 63 }
        ensures { IfOk result (λ places. places.items ≡ redone.places_behind keep from (vec_len self.now.entered) self.now.renewed.items) }
    {
        let behind = keep + self.entered.len();
        let mut places = Vec::with_capacity(alloc, self.renewed.len())?;
        for new in &self.renewed {
            places.push(place_behind(keep, from, behind, new.at))?;
        }
        Ok(places)
    }

    /// What is of the lines that were there before.
    pub fn into_renewed(self) -> Vec<SparseItem<T>>
        ensures { result ≡ self.renewed }
    {
        let News { entered, renewed } = self;
        drop(entered);
        renewed
    }
}

/// Where a line comes to stand, with `behind` for that after the first `from`, where it stood behind the first `keep`.
fn place_behind(keep: usize, from: usize, behind: usize, at: usize) -> usize
    requires { at + behind < 2 ^ 64 }
    ensures { result ≡ redone.place_behind keep from behind at }
{
    if at < keep {
        return at;
    }
    at.saturating_sub(from) + behind
}
