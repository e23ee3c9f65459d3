//! Pass two of an edit, chunk by chunk.
ghost use Rattle.std.specs.Prelude.{◌≡◌, ◌+◌, ◌-◌, ◌≤◌, ◌++◌, [], IfOk, IsTrue, List, OnOk, length, true, drop, sum, if◌then◌else◌};
ghost use Rattle.cps_state.specs.Course.{Trace as Did};
ghost use Rattle.cps_final.specs.Resolving.{resolved};
ghost use Rattle.cps_final.specs.NamedFinals.{names_in, all_pass};
ghost use Rattle.cps_edit.specs.Compares.{ComparesUpTo, Steps};
ghost use Rattle.cps_chunk.specs.Code.Chunk.{AreChunksOf, IsChunkOf, lengths_of};
ghost use Rattle.cps_chunk.specs.Code.Looks.{items_before, items_from};
ghost use Rattle.cps_chunk.specs.Sparse.{AreWithin};
ghost use Rattle.cps_chunk.specs.Code.Walk.{stretch};
ghost use Rattle.cps_live.specs.Code.NamesRead.{HasReadBy};
ghost use Rattle.cps_live.specs.Code.SecondPass.{GoesAround, GoesOver, IsExactPass, NameTheSame, NoneDiffers, StepsAround, is_same_in, looks_around, looks_at, looks_in, redone_in};
ghost use Rattle.cps_live.specs.Code.StillChunks.{AreStillChunks, CutsAround, IsStillChunk, StandFrom};

use crate::differences::Differences;
use crate::names_read::NamesRead;
use cps_chunk::{Baseline, Chunk, ChunkSplice, Redo, SparseItem, part};
use cps_final::{Ends, Outcome};
use cps_state::{Trace, Work};
use std::alloc::{AllocError, Global};

/// Pass two of an edit over the lines that were there before, as far as it has come.
pub struct SecondPass<'a> {
    base: Baseline<'a>,
    differences: Differences<'a>,
    redo: Redo<'a>,
}

// Written out: what holds one drops it by a call.
impl Drop for SecondPass<'_> {
    fn drop(self) {
        let SecondPass {
            base: _,
            differences,
            redo,
        } = self;
        drop(differences);
        drop(redo);
    }
}

impl<'a> SecondPass<'a> {
    /// In front of the first of lines that read none but these symbols.
    pub fn new(
        base: Baseline<'a>,
        ends: Ends<'a>,
        read: &NamesRead,
    ) -> Result<SecondPass<'a>, AllocError>
        requires { HasReadBy read.now base.traces.now }
        ensures base { IfOk result (λ pass. pass.base ≡ base.entry) }
        ensures ends { IfOk result (λ pass. pass.redo.ends ≡ ends.entry) }
        ensures news { IfOk result (λ pass. pass.redo.news.items ≡ []) }
        ensures exact { IfOk result IsExactPass }
    {
        let differences = Differences::of(base.alloc, base.hashing, ends, read)?;
        Ok(SecondPass {
            base,
            differences,
            redo: Redo::new(base.alloc, ends),
        })
    }

    /// Whether all that the lines of a chunk name has the same final values. It is counted nowhere.
    fn passes(&self, chunk: &mut Chunk, olds: &[Trace]) -> Result<bool, AllocError>
        requires exact { IsExactPass self.now }
        requires chunk { IsChunkOf self.now.base.hashing olds.now chunk.old }
        ensures chunk { IsChunkOf self.now.base.hashing olds.now chunk.new }
        ensures lines { chunk.new.lines ≡ chunk.old.lines }
        ensures passes { IfOk result (λ passes. passes ≡ all_pass (is_same_in self.now) (names_in olds.now)) }
    {
        if !self.differences.may_have(&chunk.reads) {
            return Ok(true);
        }
        chunk.gather_names(self.base.alloc, self.base.hashing, olds)?;
        match &chunk.names {
            Some(names) => Ok(names.all_pass(&self.differences)),
            None => Ok(false),
        }
    }

    /// Goes over the lines of a chunk, the first of them with so many in front of it; `news` is what they do that is new.
    fn go_over_chunk(
        &mut self,
        at: usize,
        chunk: &mut Chunk,
        news: &[SparseItem<Trace>],
        work: &mut Work,
    ) -> Result<(), AllocError>
        requires exact { IsExactPass self.old }
        requires within { at + chunk.old.lines ≤ length self.old.base.traces.now }
        requires chunk { IsChunkOf self.old.base.hashing (stretch at (at + chunk.old.lines) self.old.base.traces.now) chunk.old }
        requires news { AreWithin at (at + chunk.old.lines) news.now }
        ensures over { OnOk result (GoesOver self.old self.new at (at + chunk.old.lines) news.now) }
        ensures chunk { IsStillChunk self.old.base at chunk.old chunk.new }
        ensures steps { Steps result work.old work.new 0 (length (redone_in self.old at (at + chunk.old.lines) news.now)) }
        ensures looked { ComparesUpTo work.old work.new (looks_at self.old at (at + chunk.old.lines) news.now) }
    {
        let olds = part(self.base.traces, at, at + chunk.lines);
        if news.is_empty() && self.passes(chunk, olds)? {
            return Ok(());
        }
        self.redo.go_over_all(at, olds, news, work)
    }

    /// Goes over the lines of chunks, likewise.
    pub fn go_over_chunks(
        &mut self,
        at: usize,
        chunks: &mut [Chunk],
        news: &[SparseItem<Trace>],
        work: &mut Work,
    ) -> Result<(), AllocError>
        requires exact { IsExactPass self.old }
        requires chunks { StandFrom self.old.base at chunks.old }
        requires news { AreWithin at (at + sum (lengths_of chunks.old)) news.now }
        ensures over { OnOk result (GoesOver self.old self.new at (at + sum (lengths_of chunks.old)) news.now) }
        ensures chunks { AreStillChunks self.old.base at chunks.old chunks.new }
        ensures steps { Steps result work.old work.new 0 (length (redone_in self.old at (at + sum (lengths_of chunks.old)) news.now)) }
        ensures looked { ComparesUpTo work.old work.new (looks_in self.old (lengths_of chunks.old) at news.now) }
    {
        if news.is_empty() && self.differences.is_none() {
            return Ok(());
        }
        let mut at = at;
        let mut left = news;
        for chunk in chunks.iter_mut() {
            let end = at + chunk.lines;
            let (here, behind) = split_before(left, end);
            self.go_over_chunk(at, chunk, here, work)?;
            at = end;
            left = behind;
        }
        Ok(())
    }

    /// Whether nothing that the lines of chunks name has another final value, by a test that may say no where that is so.
    fn none_differs(&self, chunks: &[Chunk]) -> bool
        requires { IsExactPass self.now }
        ensures { IsTrue result → (ts : List Did) → AreChunksOf self.now.base.hashing chunks.now ts → NameTheSame self.now ts }
    {
        for chunk in chunks {
            if self.differences.may_have(&chunk.reads) {
                return false;
            }
        }
        true
    }

    /// Goes over lines one by one, from one on up to another, of which these are new. Where nothing differs that they name, and none is new, none is compared.
    fn go_over_lines(
        &mut self,
        lines: ComparedSpan,
        news: &[SparseItem<Trace>],
        work: &mut Work,
    ) -> Result<(), AllocError>
        requires ordered { lines.from ≤ lines.to }
        requires within { lines.to ≤ length self.old.base.traces.now }
        requires same { NoneDiffers self.old lines }
        requires news { AreWithin lines.from lines.to news.now }
        ensures over { OnOk result (GoesOver self.old self.new lines.from lines.to news.now) }
        ensures steps { Steps result work.old work.new 0 (length (redone_in self.old lines.from lines.to news.now)) }
        ensures looked { ComparesUpTo work.old work.new (lines.to - lines.from) }
    {
        if lines.none_differs && news.is_empty() {
            return Ok(());
        }
        let olds = part(self.base.traces, lines.from, lines.to);
        self.redo.go_over_all(lines.from, olds, news, work)
    }

    /// Goes over all lines around an edit; `news` is what those behind it do that is new.
    pub fn go_around(
        &mut self,
        chunks: &mut [Chunk],
        cut: &ChunkSplice,
        news: &[SparseItem<Trace>],
        work: &mut Work,
    ) -> Result<(), AllocError>
        requires exact { IsExactPass self.old }
        requires cut { CutsAround self.old.base cut.now chunks.old }
        requires news { AreWithin cut.now.from (length self.old.base.traces.now) news.now }
        ensures over { OnOk result (GoesAround self.old self.new cut.now news.now) }
        ensures chunks { AreStillChunks self.old.base 0 chunks.old chunks.new }
        ensures steps { StepsAround result self.old cut.now news.now work.old work.new }
        ensures looked { ComparesUpTo work.old work.new (looks_around self.old cut.now (lengths_of chunks.old) news.now) }
    {
        let (in_front, rest) = chunks.split_at_mut(cut.start);
        let (between, behind) = rest.split_at_mut(cut.end - cut.start);
        let none_differs = self.none_differs(between);
        let kept = ComparedSpan {
            from: cut.before,
            to: cut.keep,
            none_differs,
        };
        let loose = ComparedSpan {
            from: cut.from,
            to: cut.behind,
            none_differs,
        };
        let (here, left) = split_before(news, cut.behind);
        self.go_over_chunks(0, in_front, &[], work)?;
        self.go_over_lines(kept, &[], work)?;
        self.go_over_lines(loose, here, work)?;
        self.go_over_chunks(cut.behind, behind, left, work)
    }

    /// What is made anew.
    pub fn into_news(self) -> Vec<SparseItem<Outcome>>
        ensures { result ≡ self.entry.redo.news }
    {
        let SecondPass {
            base: _,
            differences,
            redo,
        } = self;
        drop(differences);
        redo.into_news()
    }
}

/// Lines from one on up to another, and whether nothing that they name has another final value, if that is known.
#[derive(Clone, Copy)]
struct ComparedSpan {
    from: usize,
    to: usize,
    none_differs: bool,
}

/// What is new in front of a place, and what is new from it on.
pub fn split_before(
    news: &[SparseItem<Trace>],
    place: usize,
) -> (&[SparseItem<Trace>], &[SparseItem<Trace>])
    ensures before { result.0.now ≡ items_before place news.now }
    ensures from { result.1.now ≡ items_from place news.now }
{
    let mut count = 0;
    for new in news {
        if new.at >= place {
            break;
        }
        count += 1;
    }
    news.split_at(count)
}
