//! Where blocks and literals stand behind an edit.
ghost use Rattle.std.specs.Prelude.{◌≡◌, ◌+◌, ◌≤◌, ◌++◌, ◌∷◌, [], IfOk, OnOk, IsTrue, List, length, sum};
ghost use Rattle.cps_state.specs.Course.{Trace as Did};
ghost use Rattle.cps_final.specs.Code.Storage.{IsStored};
ghost use Rattle.cps_chunk.specs.Sparse.{AreWithin, renewed};
ghost use Rattle.cps_edit.specs.Exchange.{exchanged};
ghost use Rattle.cps_live.specs.Code.Exchanged.{HasRuns};
ghost use Rattle.cps_chunk.specs.Code.Chunk.{IsChunkOf, lengths_of};
ghost use Rattle.cps_chunk.specs.Code.Storing.{StoresAlso};
ghost use Rattle.cps_chunk.specs.Code.Walk.{stretch};
ghost use Rattle.cps_live.specs.Code.StillChunks.{AreAllChunks, AreStillChunks, CutsAround, IsRunOf, IsStillChunk, StandFrom, done_in, renewed_in};
ghost use Rattle.cps_live.specs.Code.Storing.{IsStoredBehind, edited, left_by_each};

use crate::news::News;
use crate::second_pass::split_before;
use cps_chunk::{
    Baseline, Chunk, ChunkSplice, SparseItem, leave_same, part, store_all, store_renewed,
};
use cps_edit::Exchange;
use cps_final::Storage;
use cps_state::Trace;
use std::alloc::AllocError;
use std::slice::from_ref;

/// Where blocks and literals stand behind an edit, None where they stand as they stood. Of chunks that stay, what their lines left together is taken.
pub fn storage_behind(
    base: Baseline,
    chunks: &mut [Chunk],
    storage: &Storage,
    cut: &ChunkSplice,
    traces: &News<Trace>,
) -> Result<Option<Storage>, AllocError>
    requires stored { IsStored storage.now base.traces.now }
    requires cut { CutsAround base cut.now chunks.old }
    requires places { AreWithin cut.now.from (length base.traces.now) traces.now.renewed.items }
    ensures stored { IfOk result (λ next. IsStoredBehind base.entry.traces.now next (edited cut.now traces.now base.entry.traces.now)) }
    ensures chunks { AreStillChunks base.entry 0 chunks.old chunks.new }
{
    let olds = base.traces;
    if leave_same(&olds[cut.keep..cut.from], &traces.entered)
        && leave_same_each(olds, &traces.renewed)
    {
        return Ok(None);
    }
    if cut.keep == olds.len() {
        let mut next = storage.copy()?;
        store_all(&mut next, &traces.entered)?;
        return Ok(Some(next));
    }
    let next = storage_around(base, chunks, cut, traces)?;
    Ok(Some(next))
}

/// The same, made anew of what the chunks around it leave, and of what lines leave that stand in none.
fn storage_around(
    base: Baseline,
    chunks: &mut [Chunk],
    cut: &ChunkSplice,
    traces: &News<Trace>,
) -> Result<Storage, AllocError>
    requires cut { CutsAround base cut.now chunks.old }
    requires places { AreWithin cut.now.from (length base.traces.now) traces.now.renewed.items }
    ensures stored { IfOk result (λ next. IsStored next (edited cut.now traces.now base.entry.traces.now)) }
    ensures chunks { AreStillChunks base.entry 0 chunks.old chunks.new }
{
    let (in_front, rest) = chunks.split_at_mut(cut.start);
    let (_, behind) = rest.split_at_mut(cut.end - cut.start);
    let (here, left) = split_before(&traces.renewed, cut.behind);
    let mut next = Storage::new(base.alloc, base.hashing);
    store_chunks(&mut next, base, 0, in_front, &[])?;
    store_all(&mut next, part(base.traces, cut.before, cut.keep))?;
    store_all(&mut next, &traces.entered)?;
    let loose = part(base.traces, cut.from, cut.behind);
    store_renewed(&mut next, cut.from, loose, here)?;
    store_chunks(&mut next, base, cut.behind, behind, left)?;
    Ok(next)
}

/// With the lines of chunks more, the first of them with so many in front of it, of which these do something new.
fn store_chunks(
    storage: &mut Storage,
    base: Baseline,
    at: usize,
    chunks: &mut [Chunk],
    news: &[SparseItem<Trace>],
) -> Result<(), AllocError>
    requires chunks { StandFrom base at chunks.old }
    requires news { AreWithin at (at + sum (lengths_of chunks.old)) news.now }
    ensures stores { OnOk result (StoresAlso storage.old storage.new (renewed_in base.entry at (sum (lengths_of chunks.old)) news.now)) }
    ensures chunks { AreStillChunks base.entry at chunks.old chunks.new }
{
    let mut at = at;
    let mut left = news;
    for chunk in chunks.iter_mut() {
        let end = at + chunk.lines;
        let (here, behind) = split_before(left, end);
        store_chunk(storage, base, at, chunk, here)?;
        at = end;
        left = behind;
    }
    Ok(())
}

/// With the lines of one more, likewise.
fn store_chunk(
    storage: &mut Storage,
    base: Baseline,
    at: usize,
    chunk: &mut Chunk,
    news: &[SparseItem<Trace>],
) -> Result<(), AllocError>
    requires within { at + chunk.old.lines ≤ length base.traces.now }
    requires chunk { IsChunkOf base.hashing (stretch at (at + chunk.old.lines) base.traces.now) chunk.old }
    requires news { AreWithin at (at + chunk.old.lines) news.now }
    ensures stores { OnOk result (StoresAlso storage.old storage.new (renewed_in base.entry at chunk.old.lines news.now)) }
    ensures chunk { IsStillChunk base.entry at chunk.old chunk.new }
{
    let olds = part(base.traces, at, at + chunk.lines);
    if !news.is_empty() {
        return store_renewed(storage, at, olds, news);
    }
    chunk.gather_storage(base.alloc, base.hashing, olds)?;
    match &chunk.storage {
        Some(own) => storage.join(own),
        None => store_all(storage, olds),
    }
}

/// The same behind a line more, which does this.
pub fn storage_with(storage: &Storage, trace: &Trace) -> Result<Option<Storage>, AllocError>
    ensures { IfOk result (λ next. (olds : List Did) → IsStored storage.now olds → IsStoredBehind olds next (olds ++ trace.now ∷ [])) }
{
    if leave_same(&[], from_ref(trace)) {
        return Ok(None);
    }
    let mut next = storage.copy()?;
    next.add(trace)?;
    Ok(Some(next))
}

/// The same where two runs of lines have changed places, and these do something new.
pub fn storage_moved(
    base: Baseline,
    chunks: &mut [Chunk],
    exchange: Exchange,
    news: &[SparseItem<Trace>],
) -> Result<Option<Storage>, AllocError>
    requires runs { HasRuns (length base.traces.now) exchange }
    requires places { AreWithin exchange.keep (length base.traces.now) news.now }
    requires chunks { AreAllChunks base chunks.old }
    ensures stored { IfOk result (λ next. IsStoredBehind base.entry.traces.now next (exchanged exchange (renewed 0 news.now base.entry.traces.now))) }
    ensures chunks { AreStillChunks base.entry 0 chunks.old chunks.new }
{
    let Exchange { keep, mid, from } = exchange;
    let olds = base.traces;
    let first = &olds[keep..mid];
    let second = &olds[mid..from];
    if leave_same_each(olds, news) && (leave_same(first, &[]) || leave_same(second, &[])) {
        return Ok(None);
    }
    let next = store_moved(base, chunks, exchange, news)?;
    Ok(Some(next))
}

/// The same, made anew of what chunks leave, and of what lines leave whose chunk a run cuts.
fn store_moved(
    base: Baseline,
    chunks: &mut [Chunk],
    exchange: Exchange,
    news: &[SparseItem<Trace>],
) -> Result<Storage, AllocError>
    requires runs { HasRuns (length base.traces.now) exchange }
    requires places { AreWithin exchange.keep (length base.traces.now) news.now }
    requires chunks { AreAllChunks base chunks.old }
    ensures stored { IfOk result (λ next. IsStored next (exchanged exchange (renewed 0 news.now base.entry.traces.now))) }
    ensures chunks { AreStillChunks base.entry 0 chunks.old chunks.new }
{
    let Exchange { keep, mid, from } = exchange;
    let (first, rest) = split_before(news, mid);
    let (second, behind) = split_before(rest, from);
    let mut next = Storage::new(base.alloc, base.hashing);
    let front = RenewedRun {
        from: 0,
        to: keep,
        news: &[],
    };
    let second = RenewedRun {
        from: mid,
        to: from,
        news: second,
    };
    let first = RenewedRun {
        from: keep,
        to: mid,
        news: first,
    };
    let behind = RenewedRun {
        from,
        to: base.traces.len(),
        news: behind,
    };
    store_run(&mut next, base, chunks, front)?;
    store_run(&mut next, base, chunks, second)?;
    store_run(&mut next, base, chunks, first)?;
    store_run(&mut next, base, chunks, behind)?;
    Ok(next)
}

/// Lines from one on up to another, of which these do something new. Lines count from 0.
#[derive(Clone, Copy)]
struct RenewedRun<'n> {
    from: usize,
    to: usize,
    news: &'n [SparseItem<Trace>],
}

/// With lines more: of a chunk that is wholly among them, what its lines leave together is taken.
fn store_run(
    storage: &mut Storage,
    base: Baseline,
    chunks: &mut [Chunk],
    run: RenewedRun<'_>,
) -> Result<(), AllocError>
    requires chunks { AreAllChunks base chunks.old }
    requires run { IsRunOf (length base.traces.now) run }
    ensures stores { OnOk result (StoresAlso storage.old storage.new (done_in base.entry run.entry)) }
    ensures chunks { AreStillChunks base.entry 0 chunks.old chunks.new }
{
    let mut at = 0;
    let mut done = run.from;
    let mut left = run.news;
    for chunk in chunks.iter_mut() {
        let end = at + chunk.lines;
        let to = end.min(run.to).max(done);
        let (news, behind) = split_before(left, to);
        let part = RenewedRun {
            from: done,
            to,
            news,
        };
        store_part(storage, base, at, chunk, part)?;
        at = end;
        done = to;
        left = behind;
    }
    Ok(())
}

/// With lines more: if they are all lines of this chunk, with so many in front of it, what these leave together is taken.
fn store_part(
    storage: &mut Storage,
    base: Baseline,
    at: usize,
    chunk: &mut Chunk,
    run: RenewedRun<'_>,
) -> Result<(), AllocError>
    requires within { at + chunk.old.lines ≤ length base.traces.now }
    requires chunk { IsChunkOf base.hashing (stretch at (at + chunk.old.lines) base.traces.now) chunk.old }
    requires run { IsRunOf (length base.traces.now) run }
    ensures stores { OnOk result (StoresAlso storage.old storage.new (done_in base.entry run.entry)) }
    ensures chunk { IsStillChunk base.entry at chunk.old chunk.new }
{
    if run.from == at && run.to == at + chunk.lines {
        return store_chunk(storage, base, at, chunk, run.news);
    }
    if run.from == run.to {
        return Ok(());
    }
    let olds = part(base.traces, run.from, run.to);
    store_renewed(storage, run.from, olds, run.news)
}

/// Whether each of these lines leaves what it left.
fn leave_same_each(olds: &[Trace], news: &[SparseItem<Trace>]) -> bool
    requires { AreWithin 0 (length olds.now) news.now }
    ensures { IsTrue result → left_by_each (renewed 0 news.now olds.now) ≡ left_by_each olds.now }
{
    for new in news {
        if !leave_same(from_ref(&olds[new.at]), from_ref(&new.item)) {
            return false;
        }
    }
    true
}
