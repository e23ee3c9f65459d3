//! What stands in front of a line, sought backwards.
ghost use Rattle.std.specs.Prelude.{◌≡◌, ◌++◌};
ghost use Rattle.std.specs.Option.{option_copied};
ghost use Rattle.cps_state.specs.Course.{last_put as last_put_by};
ghost use Rattle.cps_state.specs.Keys.{first_state, overwritten};
ghost use Rattle.cps_final.specs.Layout.{puts_of};
ghost use Rattle.cps_chunk.specs.Code.Chunk.{AreChunksOf};
ghost use Rattle.cps_chunk.specs.Code.StateBefore.{sought};

use crate::chunk::Chunk;
use crate::key_filter::mark_of;
use cps_state::{Answer, Hashing, Key, Lookup, Put, State, Trace};

/// What stands in front of a line: behind the lines of chunks, and those in no chunk behind these. Takes no memory.
#[derive(Clone, Copy)]
pub struct StateBefore<'a> {
    /// What stands before the first line.
    first: &'a State,
    hashing: Hashing,
    chunks: &'a [Chunk],
    /// The lines of the chunks.
    front: &'a [Trace],
    /// The lines behind these.
    loose: &'a [Trace],
}

impl<'a> Lookup for StateBefore<'a> {
    ghost use Rattle.cps_chunk.specs.Code.StateBefore.{found};

    ghost answer = { λ past. found (⟦<State as Lookup>⟧.answer past.first.now) past };

    fn ask(&self, key: &Key) -> Option<&Answer> {
        if let Some(answer) = last_put(self.loose, key) {
            return Some(answer);
        }
        match self.seek(key) {
            Some(answer) => Some(answer),
            None => self.first.ask(key),
        }
    }

    fn hashing(&self) -> Hashing {
        self.hashing
    }
}

impl<'a> StateBefore<'a> {
    /// Behind the lines of chunks, and those behind these.
    pub fn of(
        first: &'a State,
        hashing: Hashing,
        chunks: &'a [Chunk],
        front: &'a [Trace],
        loose: &'a [Trace],
    ) -> StateBefore<'a>
        requires first { ⟦<State as Lookup>⟧.answer first.now ≡ first_state }
        requires chunks { AreChunksOf hashing chunks.now front.now }
        ensures { ⟦<StateBefore<'a> as Lookup>⟧.answer result ≡ overwritten first_state (puts_of (front.now ++ loose.now)) }
    {
        StateBefore {
            first,
            hashing,
            chunks,
            front,
            loose,
        }
    }

    /// What lines of chunks put last at a key.
    fn seek(self, key: &Key) -> Option<&'a Answer>
        ensures { option_copied result ≡ sought self.entry.hashing self.entry.chunks.now self.entry.front.now key.now }
    {
        let mark = mark_of(self.hashing, *key);
        let mut chunks = self.chunks;
        let mut front = self.front;
        while let Some((chunk, before)) = chunks.split_last() {
            let (left, here) = front.split_at(front.len().saturating_sub(chunk.lines));
            if chunk.puts.has(mark) {
                if let Some(answer) = last_put(here, key) {
                    return Some(answer);
                }
            }
            chunks = before;
            front = left;
        }
        None
    }
}

/// What lines put last at a key.
pub fn last_put<'a>(traces: &'a [Trace], key: &Key) -> Option<&'a Answer>
    ensures { option_copied result ≡ last_put_by (puts_of traces.now) key.now }
{
    for trace in traces.iter().rev() {
        if let Some(answer) = last_of(trace.puts(), key) {
            return Some(answer);
        }
    }
    None
}

/// The last of some puts at a key.
fn last_of<'a>(puts: &'a [Put], key: &Key) -> Option<&'a Answer>
    ensures { option_copied result ≡ last_put_by puts.now key.now }
{
    for put in puts.iter().rev() {
        if put.key == *key {
            return Some(&put.answer);
        }
    }
    None
}
