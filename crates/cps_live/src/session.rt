//! A source that is edited line by line.
ghost use Rattle.std.specs.Prelude.{◌≡◌, ◌-◌, ◌<◌, ◌≤◌, ◌↔◌, [], ◌∷◌, ◌++◌, length, insert, slice_get, slice_set, Some, IsTrue, IsSome, IfSome, OnOk, OnErr, IfOk, IsErrOf};
ghost use Rattle.cps_list.specs.Texts.{text_of};
ghost use Rattle.cps_chunk.specs.Division.{IsDivision, inserted_at, deleted_at};
ghost use Rattle.cps_chunk.specs.Recut.{recut as recut_by};
ghost use Rattle.cps_edit.specs.Compares.{Steps};
ghost use Rattle.cps_edit.specs.Splice.{splice_at, spliced, insertion, replacement, deletion};
ghost use Rattle.cps_live.specs.Code.Editing.{IsSplice, splice_of};
ghost use Rattle.cps_live.specs.Entering.{full_chunks};
ghost use Rattle.cps_edit.specs.Assembly.{assembly_of, traces_of};
ghost use Rattle.cps_edit.specs.Flagged.{flagged_lines as flagged_in};
ghost use Rattle.cps_edit.specs.Exchange.{exchanged, move};
ghost use Rattle.cps_chunk.specs.Exchange.{exchanged_at, moved_at};
ghost use Rattle.cps_chunk.specs.Put.{put_at};
ghost use Rattle.cps_live.specs.Edits.{HasLine, LacksLine, HasLines, LacksLines, HasMove, LacksMove, LacksPlace, MayPut, MayNotPut, IsPut, put_of, without_lines, WorkOfEdit, WorkOfMove, LooksOfAppend, LooksOfEdit, LooksOfMove, LooksOfPut, LooksOfExchange, LooksOfSplice, HaveRedone};

use crate::entering::kept_of;
use crate::kept_source::KeptSource;
use crate::lists::list_of;
use crate::redone::Redone;
use cps_chunk::ChunkSplice;
use cps_chunk::division_laws::a_put_divides_again;
use cps_edit::{Exchange, flagged_lines};
use cps_final::{Finals, Outcome};
use cps_list::{Part, View, make_text};
use cps_state::{Hashing, Trace, Work};
use cps_text::Line;
use cps_text::limits::MOST_LINES;
use std::alloc::{AllocError, Global};
use std::marker::Model;
use thiserror::Error;

/// Why an edit is refused.
#[derive(Clone, Copy, Debug, PartialEq, Eq, Error)]
pub enum EditFault {
    /// The source has no line of that number.
    #[error("no such line")]
    NoSuchLine,
    /// The source has 99,999 lines already.
    #[error("too many lines")]
    TooManyLines,
    /// Nothing else is wrong, and there was no memory.
    #[error("no memory")]
    Memory,
}

/// A source that is edited line by line. It has at most 99,999 lines.
///
/// What its lines do in pass one and what pass two makes of them is kept. An edit makes anew what it disturbs, beside what is
/// kept, and counts these steps in the caller's work; where it is refused, nothing changes.
pub struct Session {
    alloc: Global,
    kept: KeptSource,
}

// Written out, as that of what is kept: what holds a session drops it by a call.
impl Drop for Session {
    fn drop(self) {
        let Session { alloc: _, kept } = self;
        drop(kept);
    }
}

impl Model for Session {
    ghost use Rattle.cps_chunk.specs.Code.Chunk.{lengths_of};
    ghost use Rattle.cps_live.specs.Edits.{Source};
    ghost use Rattle.cps_live.specs.Code.Kept.{IsHeld};

    ghost Value = { Source };

    ghost view = { λ session. record { lines = session.kept.lines.items; lengths = lengths_of session.kept.chunks.items } };

    ghost invariant = { λ session. IsHeld session.kept };
}

impl View for Session {
    ghost use Rattle.cps_edit.specs.Assembly.{assembly_of};

    ghost assembly = { λ session. assembly_of session.lines };

    fn count(&self) -> u32 {
        self.kept.lines.len() as u32
    }

    fn line(&self, n: u32) -> Option<&Line> {
        if n == 0 {
            return None;
        }
        self.kept.lines.get(n as usize - 1)
    }

    fn outcome(&self, n: u32) -> Option<&Outcome> {
        if n == 0 {
            return None;
        }
        self.kept.outcomes.get(n as usize - 1)
    }

    fn finals(&self) -> &Finals {
        &self.kept.finals
    }

    fn open_at_end(&self) -> bool {
        self.kept.finals.is_open_at_end()
    }
}

impl Session {
    /// A source without a line. Takes no memory yet.
    pub fn new(alloc: Global, hashing: Hashing) -> Session
        ensures lines { result.lines ≡ [] }
        ensures lengths { result.lengths ≡ [] }
    {
        Session {
            alloc,
            kept: KeptSource::new(alloc, hashing),
        }
    }

    /// A source that begins with these lines. Both passes are made of each, once, and these steps are counted in the caller's work; no line is compared. The
    /// source and its division are those that come of appending the lines one by one, where an append may step lines in front of it again. An error: there was no
    /// memory.
    pub fn enter(
        alloc: Global,
        hashing: Hashing,
        lines: Vec<Line>,
        work: &mut Work,
    ) -> Result<Session, AllocError>
        requires { length lines.items ≤ MOST_LINES }
        ensures lines { IfOk result (λ session. session.lines ≡ lines.items) }
        ensures lengths { IfOk result (λ session. session.lengths ≡ full_chunks (length lines.items)) }
        ensures steps { Steps result work.old work.new (length lines.items) (length lines.items) }
        ensures looked { work.new.looked ≡ work.old.looked }
    {
        let kept = kept_of(alloc, hashing, lines, work)?;
        Ok(Session { alloc, kept })
    }

    /// How many lines the source has.
    pub fn count(&self) -> u32
        ensures count { result ≡ length self.now.lines }
        ensures within { result ≤ MOST_LINES }
    {
        self.kept.lines.len() as u32
    }

    /// Line `n`, where lines count from 1.
    pub fn line(&self, n: u32) -> Option<&Line>
        ensures there { IsSome result ↔ ((1 ≤ n) × (n ≤ length self.now.lines)) }
        ensures line { IfSome result (λ line. slice_get self.now.lines (n - 1) ≡ Some line.now) }
    {
        if n == 0 {
            return None;
        }
        self.kept.lines.get(n as usize - 1)
    }

    /// What each line did in pass one, in their order. Causes of flags are found in it.
    pub fn traces(&self) -> &[Trace]
        ensures { result.now ≡ traces_of self.now.lines }
    {
        &self.kept.traces
    }

    /// Whether the source has as many lines as it may have.
    pub fn is_full(&self) -> bool
        ensures full { IsTrue result ↔ (length self.now.lines ≡ MOST_LINES) }
        ensures within { length self.now.lines ≤ MOST_LINES }
    {
        self.kept.lines.len() == MOST_LINES
    }

    /// How many lines each chunk of the source has, in their order. An edit looks only into chunks that it touches.
    pub fn chunk_lengths(&self) -> Result<Vec<usize>, AllocError>
        ensures lengths { IfOk result (λ lengths. lengths.items ≡ self.now.lengths) }
        ensures division { IsDivision (length self.now.lines) self.now.lengths }
    {
        self.kept.lengths()
    }

    /// Inserts a line after line `after`, 0 for the front. A line that is refused is dropped.
    pub fn insert(&mut self, after: u32, line: Line, work: &mut Work) -> Result<(), EditFault>
        ensures ok { OnOk result (self.new.lines ≡ insert self.old.lines after line) }
        ensures lengths { OnOk result (self.new.lengths ≡ inserted_at after self.old.lengths) }
        ensures allowed { OnOk result ((after ≤ length self.old.lines) × (length self.old.lines < MOST_LINES)) }
        ensures err { OnErr result (self.new ≡ self.old) }
        ensures no_line { IsErrOf result EditFault.NoSuchLine ↔ (length self.old.lines < after) }
        ensures too_many { IsErrOf result EditFault.TooManyLines ↔ ((after ≤ length self.old.lines) × (length self.old.lines ≡ MOST_LINES)) }
        ensures memory { IsErrOf result EditFault.Memory → (after ≤ length self.old.lines) × (length self.old.lines < MOST_LINES) }
        ensures work { WorkOfEdit result self.old.lines (insertion after line) work.old work.new }
        ensures looked { LooksOfEdit self.old (insertion after line) (inserted_at after self.old.lengths) work.old work.new }
    {
        let after = after as usize;
        if after > self.kept.lines.len() {
            return Err(EditFault::NoSuchLine);
        }
        if self.kept.lines.len() == MOST_LINES {
            return Err(EditFault::TooManyLines);
        }
        if after == self.kept.lines.len() {
            return self.append(line, work);
        }
        let Ok(lines) = list_of(self.alloc, line) else {
            return Err(EditFault::Memory);
        };
        self.put_new(after, after, lines, work)
    }

    /// Puts a line in place of line `at`, where lines count from 1. A line that is refused is dropped.
    pub fn replace(&mut self, at: u32, line: Line, work: &mut Work) -> Result<(), EditFault>
        ensures ok { OnOk result (self.new.lines ≡ slice_set self.old.lines (at - 1) line) }
        ensures lengths { OnOk result (self.new.lengths ≡ self.old.lengths) }
        ensures allowed { OnOk result (HasLine self.old.lines at) }
        ensures err { OnErr result (self.new ≡ self.old) }
        ensures no_line { IsErrOf result EditFault.NoSuchLine ↔ LacksLine self.old.lines at }
        ensures too_many { IsErrOf result EditFault.TooManyLines → ⊥ }
        ensures memory { IsErrOf result EditFault.Memory → HasLine self.old.lines at }
        ensures work { WorkOfEdit result self.old.lines (replacement at line) work.old work.new }
        ensures looked { LooksOfEdit self.old (replacement at line) self.old.lengths work.old work.new }
    {
        let at = at as usize;
        if at == 0 || at > self.kept.lines.len() {
            return Err(EditFault::NoSuchLine);
        }
        let Ok(lines) = list_of(self.alloc, line) else {
            return Err(EditFault::Memory);
        };
        self.put_new(at - 1, at, lines, work)
    }

    /// Deletes the lines from `first` to `last`, where lines count from 1.
    pub fn delete(&mut self, first: u32, last: u32, work: &mut Work) -> Result<(), EditFault>
        ensures ok { OnOk result (self.new.lines ≡ without_lines self.old.lines first last) }
        ensures lengths { OnOk result (self.new.lengths ≡ deleted_at (first - 1) (last - (first - 1)) self.old.lengths) }
        ensures allowed { OnOk result (HasLines self.old.lines first last) }
        ensures err { OnErr result (self.new ≡ self.old) }
        ensures no_line { IsErrOf result EditFault.NoSuchLine ↔ LacksLines self.old.lines first last }
        ensures too_many { IsErrOf result EditFault.TooManyLines → ⊥ }
        ensures memory { IsErrOf result EditFault.Memory → HasLines self.old.lines first last }
        ensures work { WorkOfEdit result self.old.lines (deletion first last) work.old work.new }
        ensures looked { LooksOfEdit self.old (deletion first last) (deleted_at (first - 1) (last - (first - 1)) self.old.lengths) work.old work.new }
    {
        if first == 0 || last < first || last as usize > self.kept.lines.len() {
            return Err(EditFault::NoSuchLine);
        }
        let keep = first as usize - 1;
        let lines = Vec::new(self.alloc);
        self.put_new(keep, last as usize, lines, work)
    }

    /// Puts lines in the place of those from `first` to `last`, where lines count from 1; in front of line `first`, where `last` is the number before it. Both
    /// passes go over the source once, and it is told what they made anew beside these lines. Lines that are refused are dropped.
    pub fn put(
        &mut self,
        first: u32,
        last: u32,
        lines: Vec<Line>,
        work: &mut Work,
    ) -> Result<Redone, EditFault>
        ensures ok { OnOk result (IsPut first last lines.items self.old self.new) }
        ensures redone { IfOk result (λ redone. HaveRedone self.old (put_of first last lines.items) self.new redone) }
        ensures err { OnErr result (self.new ≡ self.old) }
        ensures no_line { IsErrOf result EditFault.NoSuchLine ↔ LacksPlace self.old.lines first last }
        ensures too_many { IsErrOf result EditFault.TooManyLines ↔ MayNotPut self.old.lines first last lines.items }
        ensures memory { IsErrOf result EditFault.Memory → MayPut self.old.lines first last lines.items }
        ensures work { WorkOfEdit result self.old.lines (put_of first last lines.items) work.old work.new }
        ensures looked { LooksOfPut self.old first last lines.items work.old work.new }
    {
        let count = self.kept.lines.len();
        if first == 0 || last < first - 1 || last as usize > count {
            return Err(EditFault::NoSuchLine);
        }
        let keep = first as usize - 1;
        let from = last as usize;
        if lines.len() > MOST_LINES - (count - (from - keep)) {
            return Err(EditFault::TooManyLines);
        }
        self.put_told(keep, from, lines, work)
    }

    /// Puts new lines in the place of those after the first `keep` up to the first `from`.
    fn put_new(
        &mut self,
        keep: usize,
        from: usize,
        lines: Vec<Line>,
        work: &mut Work,
    ) -> Result<(), EditFault>
        requires places { (keep ≤ from) × (from ≤ length self.old.lines) }
        requires few { length (spliced self.old.lines (splice_at keep from lines.items)) ≤ MOST_LINES }
        ensures ok { OnOk result (self.new.lines ≡ spliced self.old.lines (splice_at keep from lines.items)) }
        ensures lengths { OnOk result (self.new.lengths ≡ put_at keep (from - keep) (length lines.items) self.old.lengths) }
        ensures err { OnErr result (self.new ≡ self.old) }
        ensures only { OnErr result (IsErrOf result EditFault.Memory) }
        ensures work { WorkOfEdit result self.old.lines (splice_at keep from lines.items) work.old work.new }
        ensures looked { LooksOfSplice self.old keep from lines.items work.old work.new }
    {
        match self.put_told(keep, from, lines, work) {
            Ok(redone) => {
                drop(redone);
                Ok(())
            }
            Err(fault) => Err(fault),
        }
    }

    /// Puts new lines in the place of those after the first `keep` up to the first `from`, and tells what is made anew beside these.
    fn put_told(
        &mut self,
        keep: usize,
        from: usize,
        lines: Vec<Line>,
        work: &mut Work,
    ) -> Result<Redone, EditFault>
        requires places { (keep ≤ from) × (from ≤ length self.old.lines) }
        requires few { length (spliced self.old.lines (splice_at keep from lines.items)) ≤ MOST_LINES }
        ensures ok { OnOk result (self.new.lines ≡ spliced self.old.lines (splice_at keep from lines.items)) }
        ensures lengths { OnOk result (self.new.lengths ≡ put_at keep (from - keep) (length lines.items) self.old.lengths) }
        ensures redone { IfOk result (λ redone. HaveRedone self.old (splice_at keep from lines.items) self.new redone) }
        ensures err { OnErr result (self.new ≡ self.old) }
        ensures only { OnErr result (IsErrOf result EditFault.Memory) }
        ensures work { WorkOfEdit result self.old.lines (splice_at keep from lines.items) work.old work.new }
        ensures looked { LooksOfSplice self.old keep from lines.items work.old work.new }
    {
        a_put_divides_again();
        let Ok(lengths) = self.chunk_lengths() else {
            return Err(EditFault::Memory);
        };
        let Ok(splice) = ChunkSplice::of(self.alloc, &lengths, keep, from, lines) else {
            return Err(EditFault::Memory);
        };
        self.splice(splice, work)
    }

    /// Moves the lines from `first` to `last` after line `after`, 0 for the front, where lines count from 1, as they stand before the move. After line
    /// `first - 1` and after line `last` they stand already: then nothing changes.
    pub fn move_lines(
        &mut self,
        first: u32,
        last: u32,
        after: u32,
        work: &mut Work,
    ) -> Result<(), EditFault>
        ensures ok { OnOk result (self.new.lines ≡ exchanged (move first last after) self.old.lines) }
        ensures lengths { OnOk result (self.new.lengths ≡ moved_at (move first last after) self.old.lengths) }
        ensures allowed { OnOk result (HasMove self.old.lines first last after) }
        ensures err { OnErr result (self.new ≡ self.old) }
        ensures no_line { IsErrOf result EditFault.NoSuchLine ↔ LacksMove self.old.lines first last after }
        ensures too_many { IsErrOf result EditFault.TooManyLines → ⊥ }
        ensures memory { IsErrOf result EditFault.Memory → HasMove self.old.lines first last after }
        ensures work { WorkOfMove result self.old.lines (move first last after) work.old work.new }
        ensures looked { LooksOfMove self.old (move first last after) work.old work.new }
    {
        let count = self.count();
        if first == 0 || last < first || last > count || after > count {
            return Err(EditFault::NoSuchLine);
        }
        if first <= after && after < last {
            return Err(EditFault::NoSuchLine);
        }
        let exchange = Exchange::of_move(first as usize, last as usize, after as usize);
        if exchange.is_idle() {
            return Ok(());
        }
        self.exchange(exchange, work)
    }

    /// Exchanges two runs of lines, each of which has some.
    fn exchange(&mut self, exchange: Exchange, work: &mut Work) -> Result<(), EditFault>
        requires runs { (exchange.keep < exchange.mid) × (exchange.mid < exchange.from) }
        requires within { exchange.from ≤ length self.old.lines }
        ensures ok { OnOk result (self.new.lines ≡ exchanged exchange self.old.lines) }
        ensures lengths { OnOk result (self.new.lengths ≡ exchanged_at exchange self.old.lengths) }
        ensures err { OnErr result (self.new ≡ self.old) }
        ensures only { OnErr result (IsErrOf result EditFault.Memory) }
        ensures work { WorkOfMove result self.old.lines exchange work.old work.new }
        ensures looked { LooksOfExchange self.old exchange work.old work.new }
    {
        let made = self.kept.exchange(exchange, work);
        let Ok(()) = made else {
            return Err(EditFault::Memory);
        };
        Ok(())
    }

    /// Puts a line behind the last.
    fn append(&mut self, line: Line, work: &mut Work) -> Result<(), EditFault>
        requires { length self.old.lines < MOST_LINES }
        ensures ok { OnOk result (self.new.lines ≡ self.old.lines ++ line ∷ []) }
        ensures lengths { OnOk result (self.new.lengths ≡ inserted_at (length self.old.lines) self.old.lengths) }
        ensures err { OnErr result (self.new ≡ self.old) }
        ensures only { OnErr result (IsErrOf result EditFault.Memory) }
        ensures work { WorkOfEdit result self.old.lines (insertion (length self.old.lines) line) work.old work.new }
        ensures looked { LooksOfAppend self.old line work.old work.new }
    {
        let made = self.kept.append(line, work);
        let Ok(()) = made else {
            return Err(EditFault::Memory);
        };
        Ok(())
    }

    /// Puts new lines in the place of others, and tells what is made anew beside these.
    fn splice(&mut self, cut: ChunkSplice, work: &mut Work) -> Result<Redone, EditFault>
        requires cut { IsSplice self.old.lines self.old.lengths cut }
        requires few { length (spliced self.old.lines (splice_of cut)) ≤ MOST_LINES }
        ensures ok { OnOk result (self.new.lines ≡ spliced self.old.lines (splice_of cut)) }
        ensures lengths { OnOk result (self.new.lengths ≡ recut_by cut.start cut.end cut.lengths.items self.old.lengths) }
        ensures redone { IfOk result (λ redone. HaveRedone self.old (splice_of cut) self.new redone) }
        ensures err { OnErr result (self.new ≡ self.old) }
        ensures only { OnErr result (IsErrOf result EditFault.Memory) }
        ensures work { WorkOfEdit result self.old.lines (splice_of cut) work.old work.new }
        ensures looked { LooksOfEdit self.old (splice_of cut) (recut_by cut.start cut.end cut.lengths.items self.old.lengths) work.old work.new }
    {
        let made = self.kept.splice(cut, work);
        let Ok(redone) = made else {
            return Err(EditFault::Memory);
        };
        Ok(redone)
    }

    /// A text of the source.
    pub fn text(&self, alloc: Global, part: Part) -> Result<Vec<u8>, AllocError>
        ensures { IfOk result (λ text. text.items ≡ text_of part (assembly_of self.now.lines)) }
    {
        make_text(alloc, self, part)
    }

    /// How many lines of the source have a flag, and one more if it ends while a range is open. Takes no memory.
    pub fn flagged(&self) -> u32
        ensures { result ≡ flagged_in self.now.lines }
    {
        flagged_lines(&self.kept.outcomes, self.kept.finals.is_open_at_end()) as u32
    }
}
