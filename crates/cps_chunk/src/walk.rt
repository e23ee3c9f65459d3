//! Pass one of an edit over a source in chunks.
ghost use Rattle.std.specs.Prelude.{◌≡◌, ◌+◌, ◌-◌, ◌<◌, ◌≤◌, ◌++◌, [], List, OnOk, IfOk, true, false, ◌||◌, is_some, length, take, drop, sum, if◌then◌else◌};
ghost use Rattle.std.specs.List.{list_any};
ghost use Rattle.cps_state.specs.declared.key.Key.{Key as AKey};
ghost use Rattle.cps_state.specs.Course.{last_put as last_put_by};
ghost use Rattle.cps_final.specs.Changes.{no_change, agreed};
ghost use Rattle.cps_final.specs.Code.Kept.{changes_in, keys_in};
ghost use Rattle.cps_final.specs.Layout.{puts_of};
ghost use Rattle.cps_pass.specs.Expansion.{trace_of};
ghost use Rattle.cps_final.specs.Holds.{holds};
ghost use Rattle.cps_final.specs.Run.{run_of};
ghost use Rattle.cps_edit.specs.Compares.{ComparesUpTo, Steps};
ghost use Rattle.cps_edit.specs.Passes.{traces_from};
ghost use Rattle.cps_chunk.specs.Code.Chunk.{AreChunksOf, IsChunkOf, lengths_of};
ghost use Rattle.cps_state.specs.Keys.{same_key};
ghost use Rattle.cps_chunk.specs.Code.Sought.{AreSought, IsUntouched, is_asked};
ghost use Rattle.cps_chunk.specs.KeyFilter.{has};
ghost use Rattle.cps_chunk.specs.Noted.{last_puts, stands};
ghost use Rattle.cps_chunk.specs.Code.Replay.{Closes, now_with};
ghost use Rattle.cps_chunk.specs.Replayed.{replayed};
ghost use Rattle.cps_chunk.specs.Code.Walk.{AreChunksFrom, IsBaseline, MayGoOver, IsWalk, IsStillWalk, GoesOver, HasMadeNothing, StandsAt, asks_in, changed_in, cursor, looks_at, looks_in, now_at, puts_in, replayed_in, state_at, stood_at, stretch};
ghost use Rattle.cps_chunk.specs.Code.Along.{GoesAlong, IsChunkAt, IsGatheredAt, IsInside, IsSpan, MayGo, front_at, looks_in_span, looks_of, looks_whole, reached, replayed_along, span};
ghost use Rattle.cps_chunk.specs.declared.walk.Destination.TheVariants.{Behind};

use crate::chunk::Chunk;
use crate::key_filter::mark_of;
use crate::replay::{OldLine, Replay};
use crate::same::same_answers_under;
use crate::sought_keys::SoughtKeys;
use crate::state_before::{StateBefore, last_put};
use cps_final::{Changes, same_answers};
use cps_state::{Asked, Hashing, Key, Lookup, State, Trace, Work};
use cps_text::Line;
use std::alloc::{AllocError, Global};

/// The most changed keys that are sought by their marks.
const FEW: usize = 64;

/// What is kept of a source, as it stood before an edit.
#[derive(Clone, Copy)]
pub struct Baseline<'a> {
    pub alloc: Global,
    pub hashing: Hashing,
    /// What stands before the first line.
    pub first: &'a State,
    pub lines: &'a [Line],
    pub traces: &'a [Trace],
}

/// A chunk, and how many lines stand in front of it.
#[derive(Clone, Copy)]
pub struct Cursor {
    pub chunk: usize,
    pub line: usize,
}

/// The lines after the first `from`, up to the first `to`.
#[derive(Clone, Copy)]
pub struct Span {
    pub from: usize,
    pub to: usize,
}

impl Span {
    /// The place that is reached in it where another place is reached: its own begin or end where that lies outside.
    fn reached(self, place: usize) -> usize
        ensures { result ≡ reached self place }
    {
        self.from.max(self.to.min(place))
    }
}

/// Where lines stand now that stood in a source before.
#[derive(Clone, Copy)]
pub enum Destination {
    /// Where they stood.
    Same,
    /// Behind the first so many lines, and those that were carried there before them.
    Behind(usize),
}

/// Pass one of an edit over a source in chunks, as far as it has come.
pub struct Walk<'a> {
    base: Baseline<'a>,
    chunks: Vec<Chunk>,
    replay: Replay,
}

// Written out: what holds one drops it by a call.
impl Drop for Walk<'_> {
    fn drop(self) {
        let Walk {
            base: _,
            chunks,
            replay,
        } = self;
        drop(chunks);
        drop(replay);
    }
}

impl<'a> Walk<'a> {
    /// In front of an edit. Takes no memory yet.
    pub fn new(base: Baseline<'a>, chunks: Vec<Chunk>) -> Walk<'a>
        ensures base { result.base ≡ base.entry }
        ensures chunks { result.chunks ≡ chunks }
        ensures changes { changes_in result.replay.log.changes ≡ no_change }
        ensures present { changes_in result.replay.log.present ≡ no_change }
        ensures news { result.replay.news.items ≡ [] }
    {
        Walk {
            base,
            chunks,
            replay: Replay::new(base.alloc, base.hashing),
        }
    }

    /// The end of all chunks.
    pub fn end(&self) -> Cursor
        requires { IsWalk self.now }
        ensures stands { StandsAt self.now.chunks.items result }
        ensures chunk { result.chunk ≡ length self.now.chunks.items }
        ensures line { result.line ≡ length self.now.base.lines.now }
    {
        Cursor {
            chunk: self.chunks.len(),
            line: self.base.lines.len(),
        }
    }

    /// The chunk of a line, and the end of all for one too many.
    fn cursor_at(&self, at: usize) -> Cursor
        requires { IsWalk self.now }
        ensures stands { StandsAt self.now.chunks.items result }
        ensures begins { result.line ≤ at }
    {
        let mut line = 0;
        for chunk in 0..self.chunks.len() {
            let lines = self.chunks[chunk].lines;
            if at - line < lines {
                return Cursor { chunk, line };
            }
            line += lines;
        }
        Cursor {
            chunk: self.chunks.len(),
            line,
        }
    }

    /// What new lines do that come in the place of those after the first `keep`.
    pub fn enter_all(
        &mut self,
        keep: usize,
        lines: &[Line],
        work: &mut Work,
    ) -> Result<Vec<Trace>, AllocError>
        requires { MayGoOver self.old keep keep }
        ensures traces { IfOk result (λ traces. traces.items ≡ traces_from (now_at self.old keep) lines.now) }
        ensures puts { IfOk result (λ traces. changes_in self.new.replay.log.present ≡ last_puts (puts_of traces.items)) }
        ensures changes { self.new.replay.log.changes ≡ self.old.replay.log.changes }
        ensures rest { HasMadeNothing self.old self.new }
        ensures steps { Steps result work.old work.new (length lines.now) 0 }
        ensures looked { work.new.looked ≡ work.old.looked }
    {
        let cursor = self.cursor_at(keep);
        let past = past_of(self.base, &self.chunks, cursor, keep);
        self.replay.enter_all(lines, &past, work)
    }

    /// The new lines end, which come in the place of those after the first `keep` up to the first `from`.
    pub fn close(&mut self, keep: usize, from: usize) -> Result<(), AllocError>
        requires walk { IsWalk self.old }
        requires ordered { keep ≤ from }
        requires within { from ≤ length self.old.base.lines.now }
        ensures changes { OnOk result (Closes self.old.replay.log self.new.replay.log (state_at self.old keep) (puts_in self.old keep from)) }
        ensures present { OnOk result (changes_in self.new.replay.log.present ≡ no_change) }
        ensures rest { HasMadeNothing self.old self.new }
    {
        let cursor = self.cursor_at(keep);
        let past = past_of(self.base, &self.chunks, cursor, keep);
        self.replay.close(part(self.base.traces, keep, from), &past)
    }

    /// Goes over the lines after the first `from` up to the first `to`, one by one, as long as something is changed.
    pub fn go_over_lines(
        &mut self,
        from: usize,
        to: usize,
        work: &mut Work,
    ) -> Result<(), AllocError>
        requires { MayGoOver self.old from to }
        ensures over { OnOk result (GoesOver self.old self.new from to) }
        ensures rest { (self.new.base ≡ self.old.base) × (self.new.chunks ≡ self.old.chunks) }
        ensures steps { Steps result work.old work.new (length (replayed_in self.old from to)) 0 }
        ensures looked { ComparesUpTo work.old work.new (to - from) }
    {
        let cursor = self.cursor_at(from);
        self.go_over_from(cursor, from, to, work)
    }

    /// The same, where the first of them stands in this chunk.
    fn go_over_from(
        &mut self,
        cursor: Cursor,
        from: usize,
        to: usize,
        work: &mut Work,
    ) -> Result<(), AllocError>
        requires may { MayGoOver self.old from to }
        requires cursor { StandsAt self.old.chunks.items cursor }
        requires begins { cursor.line ≤ from }
        ensures over { OnOk result (GoesOver self.old self.new from to) }
        ensures rest { (self.new.base ≡ self.old.base) × (self.new.chunks ≡ self.old.chunks) }
        ensures steps { Steps result work.old work.new (length (replayed_in self.old from to)) 0 }
        ensures looked { ComparesUpTo work.old work.new (to - from) }
    {
        for at in from..to {
            if self.replay.changes().is_empty() {
                return Ok(());
            }
            let old = OldLine {
                at,
                line: &self.base.lines[at],
                trace: &self.base.traces[at],
            };
            let past = past_of(self.base, &self.chunks, cursor, at);
            self.replay.go_over(old, &past, work)?;
        }
        Ok(())
    }

    /// Goes over chunks, from one on up to the one of a number, in front of which so many lines stand, as long as something is changed. Only where something that
    /// the lines of a chunk ask together has another answer now, they are compared one by one.
    pub fn go_over_chunks(
        &mut self,
        first: Cursor,
        past: usize,
        to: usize,
        work: &mut Work,
    ) -> Result<(), AllocError>
        requires walk { IsWalk self.old }
        requires chunks { AreChunksFrom self.old.chunks.items first (cursor past to) }
        requires present { changes_in self.old.replay.log.present ≡ no_change }
        ensures over { OnOk result (GoesOver self.old self.new first.line to) }
        ensures walk { IsStillWalk self.old self.new }
        ensures steps { Steps result work.old work.new (length (replayed_in self.old first.line to)) 0 }
        ensures looked { ComparesUpTo work.old work.new (looks_in self.old first (cursor past to)) }
    {
        let mut sought = self.sought_keys()?;
        let mut line = first.line;
        for chunk in first.chunk..past {
            if self.replay.changes().is_empty() {
                return Ok(());
            }
            let end = line + self.chunks[chunk].lines;
            self.go_over_sought(&mut sought, Cursor { chunk, line }, end, work)?;
            line = end;
        }
        Ok(())
    }

    /// The keys that are changed, to be sought in chunks; None where there are too many.
    fn sought_keys(&self) -> Result<Option<SoughtKeys>, AllocError>
        ensures { IfOk result (AreSought self.now.base.hashing self.now.replay.log.changes) }
    {
        sought_keys(self.base.alloc, self.base.hashing, self.replay.changes())
    }

    /// Goes over a chunk, up to this end. It is passed unread where none of the keys that are sought has its bits there; these are those that are changed.
    fn go_over_sought(
        &mut self,
        sought: &mut Option<SoughtKeys>,
        cursor: Cursor,
        end: usize,
        work: &mut Work,
    ) -> Result<(), AllocError>
        requires walk { IsWalk self.old }
        requires chunk { IsChunkAt self.old cursor }
        requires end { end ≡ sum (take (cursor.chunk + 1) (lengths_of self.old.chunks.items)) }
        requires present { changes_in self.old.replay.log.present ≡ no_change }
        requires sought { AreSought self.old.base.hashing self.old.replay.log.changes sought.old }
        ensures over { OnOk result (GoesOver self.old self.new cursor.line end) }
        ensures walk { IsStillWalk self.old self.new }
        ensures sought { OnOk result (AreSought self.new.base.hashing self.new.replay.log.changes sought.new) }
        ensures steps { Steps result work.old work.new (length (replayed_in self.old cursor.line end)) 0 }
        ensures looked { ComparesUpTo work.old work.new (looks_at self.old cursor.line end) }
    {
        if !may_touch(&self.chunks[cursor.chunk], sought) {
            return Ok(());
        }
        self.go_over_chunk(cursor, end, work)?;
        *sought = self.sought_keys()?;
        Ok(())
    }

    /// Goes over a chunk, up to this end.
    fn go_over_chunk(
        &mut self,
        cursor: Cursor,
        end: usize,
        work: &mut Work,
    ) -> Result<(), AllocError>
        requires walk { IsWalk self.old }
        requires chunk { IsChunkAt self.old cursor }
        requires end { end ≡ sum (take (cursor.chunk + 1) (lengths_of self.old.chunks.items)) }
        requires present { changes_in self.old.replay.log.present ≡ no_change }
        ensures over { OnOk result (GoesOver self.old self.new cursor.line end) }
        ensures walk { IsStillWalk self.old self.new }
        ensures steps { Steps result work.old work.new (length (replayed_in self.old cursor.line end)) 0 }
        ensures looked { ComparesUpTo work.old work.new (looks_at self.old cursor.line end) }
    {
        if self.same_answers_in(cursor, end)? {
            self.agree(cursor, end);
            return Ok(());
        }
        self.go_over_from(cursor, cursor.line, end, work)
    }

    /// Whether the lines of a chunk, up to this end, do what they did. It is counted nowhere.
    fn same_answers_in(&mut self, cursor: Cursor, end: usize) -> Result<bool, AllocError>
        requires walk { IsWalk self.old }
        requires cursor { StandsAt self.old.chunks.items cursor }
        requires within { cursor.chunk < length self.old.chunks.items }
        requires end { end ≡ sum (take (cursor.chunk + 1) (lengths_of self.old.chunks.items)) }
        ensures same { IfOk result (λ same. same ≡ stands (changed_in self.old) (asks_in self.old cursor.line end)) }
        ensures walk { IsWalk self.new }
        ensures lengths { lengths_of self.new.chunks.items ≡ lengths_of self.old.chunks.items }
        ensures rest { (self.new.base ≡ self.old.base) × (self.new.replay ≡ self.old.replay) }
    {
        let traces = part(self.base.traces, cursor.line, end);
        let chunk = &mut self.chunks[cursor.chunk];
        if !may_ask(self.base.hashing, chunk, traces, self.replay.changes()) {
            return Ok(true);
        }
        chunk.gather_run(self.base.alloc, self.base.hashing, traces)?;
        match &chunk.run {
            Some(run) => Ok(same_answers_under(run.asks(), self.replay.changes())),
            None => Ok(false),
        }
    }

    /// Goes over a chunk whose lines do what they did.
    fn agree(&mut self, cursor: Cursor, end: usize)
        requires walk { IsWalk self.old }
        requires cursor { StandsAt self.old.chunks.items cursor }
        requires within { cursor.chunk < length self.old.chunks.items }
        requires end { end ≡ sum (take (cursor.chunk + 1) (lengths_of self.old.chunks.items)) }
        ensures changes { changed_in self.new ≡ agreed (changed_in self.old) (puts_in self.old cursor.line end) }
        ensures present { self.new.replay.log.present ≡ self.old.replay.log.present }
        ensures news { self.new.replay.news ≡ self.old.replay.news }
        ensures rest { (self.new.base ≡ self.old.base) × (self.new.chunks ≡ self.old.chunks) }
    {
        let traces = part(self.base.traces, cursor.line, end);
        if !may_put(
            self.base.hashing,
            &self.chunks[cursor.chunk],
            traces,
            self.replay.changes(),
        ) {
            return;
        }
        self.replay.agree_all(traces);
    }

    /// Goes along a span, chunk by chunk. Lines are compared one by one only where others of their chunk lie outside, or where something that all lines of their
    /// chunk ask together has another answer now.
    pub fn go_along(
        &mut self,
        position: Destination,
        span: Span,
        work: &mut Work,
    ) -> Result<(), AllocError>
        requires walk { IsWalk self.old }
        requires span { IsSpan self.old position span }
        ensures along { OnOk result (GoesAlong self.old self.new position span) }
        ensures walk { IsStillWalk self.old self.new }
        ensures steps { Steps result work.old work.new (length (replayed_along self.old position span)) 0 }
        ensures looked { ComparesUpTo work.old work.new (looks_in_span self.old position span) }
    {
        let past = self.end();
        let mut line = 0;
        for chunk in 0..past.chunk {
            let cursor = Cursor { chunk, line };
            let end = line + self.chunks[chunk].lines;
            let part = Span {
                from: span.reached(line),
                to: span.reached(end),
            };
            self.go_along_part(position, cursor, part, work)?;
            line = end;
        }
        Ok(())
    }

    /// The same of those lines of a span that stand in a chunk.
    fn go_along_part(
        &mut self,
        position: Destination,
        cursor: Cursor,
        part: Span,
        work: &mut Work,
    ) -> Result<(), AllocError>
        requires walk { IsWalk self.old }
        requires part { IsSpan self.old position part }
        requires cursor { IsChunkAt self.old cursor }
        requires inside { part.from < part.to → IsInside self.old cursor part }
        ensures along { OnOk result (GoesAlong self.old self.new position part) }
        ensures walk { IsStillWalk self.old self.new }
        ensures steps { Steps result work.old work.new (length (replayed_along self.old position part)) 0 }
        ensures looked { ComparesUpTo work.old work.new (looks_of self.old position cursor part) }
    {
        if part.from == part.to {
            return Ok(());
        }
        if part.from == cursor.line && part.to - part.from == self.chunks[cursor.chunk].lines {
            return self.go_along_chunk(position, cursor, part.to, work);
        }
        match position {
            Destination::Same => self.go_over_from(cursor, part.from, part.to, work),
            Destination::Behind(place) => self.carry_lines(place, part, work),
        }
    }

    /// The same of all lines of a chunk.
    fn go_along_chunk(
        &mut self,
        position: Destination,
        cursor: Cursor,
        end: usize,
        work: &mut Work,
    ) -> Result<(), AllocError>
        requires walk { IsWalk self.old }
        requires may { MayGo self.old position }
        requires cursor { IsChunkAt self.old cursor }
        requires end { end ≡ sum (take (cursor.chunk + 1) (lengths_of self.old.chunks.items)) }
        ensures along { OnOk result (GoesAlong self.old self.new position (span cursor.line end)) }
        ensures walk { IsStillWalk self.old self.new }
        ensures steps { Steps result work.old work.new (length (replayed_along self.old position (span cursor.line end))) 0 }
        ensures looked { ComparesUpTo work.old work.new (looks_whole self.old position cursor.line end) }
    {
        match position {
            Destination::Same => self.go_over_chunk(cursor, end, work),
            Destination::Behind(place) => self.carry_chunk(place, cursor, end, work),
        }
    }

    /// The same of all lines of a chunk that are carried.
    fn carry_chunk(
        &mut self,
        place: usize,
        cursor: Cursor,
        end: usize,
        work: &mut Work,
    ) -> Result<(), AllocError>
        requires walk { IsWalk self.old }
        requires place { place ≤ length self.old.base.lines.now }
        requires cursor { IsChunkAt self.old cursor }
        requires end { end ≡ sum (take (cursor.chunk + 1) (lengths_of self.old.chunks.items)) }
        ensures along { OnOk result (GoesAlong self.old self.new (Behind place) (span cursor.line end)) }
        ensures walk { IsStillWalk self.old self.new }
        ensures steps { Steps result work.old work.new (length (replayed_along self.old (Behind place) (span cursor.line end))) 0 }
        ensures looked { ComparesUpTo work.old work.new (looks_whole self.old (Behind place) cursor.line end) }
    {
        if self.same_answers_behind(place, cursor, end)? {
            let traces = part(self.base.traces, cursor.line, end);
            return self.replay.carry_all(traces);
        }
        let lines = Span {
            from: cursor.line,
            to: end,
        };
        self.carry_lines(place, lines, work)
    }

    /// Whether the lines of a chunk, up to this end, do what they did where they are carried. It is counted nowhere.
    fn same_answers_behind(
        &mut self,
        place: usize,
        cursor: Cursor,
        end: usize,
    ) -> Result<bool, AllocError>
        requires walk { IsWalk self.old }
        requires place { place ≤ length self.old.base.lines.now }
        requires cursor { IsChunkAt self.old cursor }
        requires end { end ≡ sum (take (cursor.chunk + 1) (lengths_of self.old.chunks.items)) }
        ensures holds { IfOk result (λ same. same ≡ holds (asks_in self.old cursor.line end) (front_at self.old (Behind place) cursor.line)) }
        ensures walk { IsStillWalk self.old self.new }
        ensures replay { self.new.replay ≡ self.old.replay }
    {
        self.gather_run(cursor, end)?;
        let there = self.cursor_at(place);
        let past = past_of(self.base, &self.chunks, there, place);
        let now = self.replay.now(&past);
        match &self.chunks[cursor.chunk].run {
            Some(run) => Ok(same_answers(run.asks(), &now)),
            None => Ok(false),
        }
    }

    /// Gathers what the lines of a chunk, up to this end, ask together, if it was not.
    fn gather_run(&mut self, cursor: Cursor, end: usize) -> Result<(), AllocError>
        requires walk { IsWalk self.old }
        requires cursor { IsChunkAt self.old cursor }
        requires end { end ≡ sum (take (cursor.chunk + 1) (lengths_of self.old.chunks.items)) }
        ensures gathered { OnOk result (IsGatheredAt self.new cursor.chunk) }
        ensures walk { IsStillWalk self.old self.new }
        ensures replay { self.new.replay ≡ self.old.replay }
    {
        let traces = part(self.base.traces, cursor.line, end);
        self.chunks[cursor.chunk].gather_run(self.base.alloc, self.base.hashing, traces)
    }

    /// Carries lines one by one.
    fn carry_lines(&mut self, place: usize, lines: Span, work: &mut Work) -> Result<(), AllocError>
        requires walk { IsWalk self.old }
        requires lines { IsSpan self.old (Behind place) lines }
        ensures along { OnOk result (GoesAlong self.old self.new (Behind place) lines) }
        ensures rest { (self.new.base ≡ self.old.base) × (self.new.chunks ≡ self.old.chunks) }
        ensures steps { Steps result work.old work.new (length (replayed_along self.old (Behind place) lines)) 0 }
        ensures looked { ComparesUpTo work.old work.new (lines.to - lines.from) }
    {
        let cursor = self.cursor_at(place);
        for at in lines.from..lines.to {
            let old = OldLine {
                at,
                line: &self.base.lines[at],
                trace: &self.base.traces[at],
            };
            let past = past_of(self.base, &self.chunks, cursor, place);
            self.replay.carry(old, &past, work)?;
        }
        Ok(())
    }

    /// How many lines are made anew so far.
    pub fn made(&self) -> usize
        ensures { result ≡ length self.now.replay.news.items }
    {
        self.replay.made()
    }

    /// The chunks, and what is made anew of the lines.
    pub fn into_parts(self) -> (Vec<Chunk>, Replay)
        ensures chunks { result.0 ≡ self.entry.chunks }
        ensures replay { result.1 ≡ self.entry.replay }
    {
        let Walk {
            base: _,
            chunks,
            replay,
        } = self;
        (chunks, replay)
    }
}

/// What stood in front of a line, behind the chunks in front of this one and the lines behind these.
fn past_of<'a, 'b: 'a>(
    base: Baseline<'b>,
    chunks: &'a [Chunk],
    cursor: Cursor,
    at: usize,
) -> StateBefore<'a>
    requires base { IsBaseline base }
    requires chunks { AreChunksOf base.hashing chunks.now base.traces.now }
    requires cursor { StandsAt chunks.now cursor }
    requires behind { cursor.line ≤ at }
    requires within { at ≤ length base.lines.now }
    ensures { ⟦<StateBefore<'a> as Lookup>⟧.answer result ≡ stood_at base.entry at }
{
    let (before, _) = chunks.split_at(cursor.chunk);
    let (front, behind) = base.traces.split_at(cursor.line);
    let (loose, _) = behind.split_at(at - cursor.line);
    StateBefore::of(base.first, base.hashing, before, front, loose)
}

/// What the lines after the first `from` up to the first `to` did.
pub fn part<'a>(traces: &'a [Trace], from: usize, to: usize) -> &'a [Trace]
    requires ordered { from ≤ to }
    requires within { to ≤ length traces.now }
    ensures { result.now ≡ stretch from to traces.now }
{
    &traces[from..to]
}

/// The changed keys, to be sought in chunks; None where there are too many.
fn sought_keys(
    alloc: Global,
    hashing: Hashing,
    changes: &Changes,
) -> Result<Option<SoughtKeys>, AllocError>
    ensures { IfOk result (AreSought hashing changes.now) }
{
    if changes.count() > FEW {
        return Ok(None);
    }
    let mut sought = SoughtKeys::new(alloc);
    for i in 0..changes.count() {
        sought.seek(hashing, changes.key(i))?;
    }
    Ok(Some(sought))
}

/// Whether the lines of a chunk may ask or put one of the keys that are sought. Takes no memory.
fn may_touch(chunk: &Chunk, sought: &Option<SoughtKeys>) -> bool
    ensures { result ≡ false → IsUntouched chunk.now sought.now }
{
    match sought {
        Some(keys) => may_hold(chunk, keys),
        None => true,
    }
}

/// Whether one of these keys may be asked or put by the lines of a chunk.
fn may_hold(chunk: &Chunk, keys: &SoughtKeys) -> bool
    ensures { result ≡ (list_any (has chunk.now.reads) keys.now || list_any (has chunk.now.puts) keys.now) }
{
    keys.has_bits_in(&chunk.reads) || keys.has_bits_in(&chunk.puts)
}

/// Whether the lines of a chunk, which did this, may ask a changed key. Their asks are gone through only for a key that has its mark; no answer is compared.
fn may_ask(hashing: Hashing, chunk: &Chunk, traces: &[Trace], changes: &Changes) -> bool
    requires { IsChunkOf hashing traces.now chunk.now }
    ensures { result ≡ false → stands (changes_in changes.now) (run_of traces.now).asks ≡ true }
{
    if changes.count() > FEW {
        return true;
    }
    for i in 0..changes.count() {
        if asks_key(hashing, chunk, traces, changes.key(i)) {
            return true;
        }
    }
    false
}

/// Whether they ask this key.
fn asks_key(hashing: Hashing, chunk: &Chunk, traces: &[Trace], key: Key) -> bool
    requires { IsChunkOf hashing traces.now chunk.now }
    ensures { result ≡ is_asked traces.now key }
{
    if !chunk.reads.has(mark_of(hashing, key)) {
        return false;
    }
    traces.iter().any(|trace| is_among(trace.asks(), key))
}

/// Whether this key is one of those that were asked.
fn is_among(asks: &[Asked], key: Key) -> bool
    ensures { result ≡ list_any (λ asked. same_key asked.key key) asks.now }
{
    asks.iter().any(|asked| asked.key == key)
}

/// Whether the lines of a chunk, which did this, may put a changed key. Their puts are gone through only for a key that has its mark.
fn may_put(hashing: Hashing, chunk: &Chunk, traces: &[Trace], changes: &Changes) -> bool
    requires { IsChunkOf hashing traces.now chunk.now }
    ensures { result ≡ false → agreed (changes_in changes.now) (puts_of traces.now) ≡ changes_in changes.now }
{
    if changes.count() > FEW {
        return true;
    }
    for i in 0..changes.count() {
        if puts_key(hashing, chunk, traces, changes.key(i)) {
            return true;
        }
    }
    false
}

/// Whether they put this key.
fn puts_key(hashing: Hashing, chunk: &Chunk, traces: &[Trace], key: Key) -> bool
    requires { IsChunkOf hashing traces.now chunk.now }
    ensures { result ≡ is_some (last_put_by (puts_of traces.now) key) }
{
    if !chunk.puts.has(mark_of(hashing, key)) {
        return false;
    }
    last_put(traces, &key).is_some()
}
