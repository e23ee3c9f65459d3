//! Where blocks and literals stand behind an edit.
ghost use Rattle.std.specs.Prelude.{◌≡◌, ◌+◌, ◌++◌, ◌∷◌, [], List, IsTrue, OnOk, is_some, length, not};
ghost use Rattle.std.specs.List.{list_all};
ghost use Rattle.cps_state.specs.Course.{Trace as Did};
ghost use Rattle.cps_final.specs.Code.Storage.{IsStored};
ghost use Rattle.cps_chunk.specs.Code.Leaving.{leaves_counters_alone, leaves_nothing, same_counter};
ghost use Rattle.cps_chunk.specs.Sparse.{AreWithin, renewed};
ghost use Rattle.cps_chunk.specs.Code.Storing.{counters_in, is_counter, left_by};

use crate::sparse::SparseItem;
use cps_final::{Naming, Storage, all_pass};
use cps_state::{Item, Key, Put, Trace};
use cps_text::Name;
use std::alloc::AllocError;

/// Whether lines leave the same at counters, in literals and in the program's name as those in whose place they stand. Takes no memory.
///
/// Lines that name a literal or the program, and more than one that moves a counter, may leave the same where this says no.
pub fn leave_same(olds: &[Trace], news: &[Trace]) -> bool
    ensures { IsTrue result → left_by olds.now ≡ left_by news.now }
{
    if olds.len() == 1 && news.len() == 1 {
        return leaves_same(&olds[0], &news[0]);
    }
    leave_nothing(olds) && leave_nothing(news)
}

fn leaves_same(old: &Trace, new: &Trace) -> bool
    ensures { IsTrue result → left_by (old.now ∷ []) ≡ left_by (new.now ∷ []) }
{
    same_counters(old.puts(), new.puts())
        && leaves_counters_alone(old)
        && leaves_counters_alone(new)
}

/// Whether puts are the same at counters, each at its place. Others may stand between.
fn same_counters(olds: &[Put], news: &[Put]) -> bool
    ensures { IsTrue result → counters_in olds.now ≡ counters_in news.now }
{
    if olds.len() != news.len() {
        return false;
    }
    for i in 0..olds.len() {
        if !is_same_counter(&olds[i], &news[i]) {
            return false;
        }
    }
    true
}

fn is_same_counter(old: &Put, new: &Put) -> bool
    ensures { result ≡ same_counter old.now new.now }
{
    (!is_counter(old.key) && !is_counter(new.key)) || old == new
}

fn leave_nothing(traces: &[Trace]) -> bool
    ensures { result ≡ list_all leaves_nothing traces.now }
{
    traces.iter().all(|trace| leaves_nothing(trace))
}

fn leaves_nothing(trace: &Trace) -> bool
    ensures { result ≡ leaves_nothing trace.now }
{
    put_no_counter(trace.puts()) && leaves_counters_alone(trace)
}

fn put_no_counter(puts: &[Put]) -> bool
    ensures { result ≡ list_all (λ p. not (is_counter p.key)) puts.now }
{
    puts.iter().all(|put| !is_counter(put.key))
}

fn is_counter(key: Key) -> bool
    ensures { result ≡ is_counter key }
{
    match key {
        Key::Counter(_) => true,
        _ => false,
    }
}

/// Whether a line leaves nothing but what it puts at counters.
fn leaves_counters_alone(trace: &Trace) -> bool
    ensures { result ≡ leaves_counters_alone trace.now }
{
    all_pass(trace.items(), &NoLiteral) && are_nameless(trace.items())
}

/// Whether statements give the program no name.
fn are_nameless(items: &[Item]) -> bool
    ensures { result ≡ list_all (λ item. not (is_some item.made.program)) items.now }
{
    items.iter().all(|item| item.made.program().is_none())
}

/// All but literals.
#[derive(Clone, Copy)]
struct NoLiteral;

impl Naming for NoLiteral {
    ghost use Rattle.cps_chunk.specs.Code.NoLiteral.{is_no_literal};

    ghost passes = { λ _. is_no_literal };

    fn label(&self, _name: Name) -> bool {
        true
    }

    fn block(&self, _name: Option<Name>) -> bool {
        true
    }

    fn literal(&self, _word: u64) -> bool {
        false
    }
}

/// With some lines more.
pub fn store_all(storage: &mut Storage, traces: &[Trace]) -> Result<(), AllocError>
    ensures { OnOk result ((ts : List Did) → IsStored storage.old ts → IsStored storage.new (ts ++ traces.now)) }
{
    for trace in traces {
        storage.add(trace)?;
    }
    Ok(())
}

/// With some lines more from a place on, of which these do something new.
pub fn store_renewed(
    storage: &mut Storage,
    from: usize,
    olds: &[Trace],
    news: &[SparseItem<Trace>],
) -> Result<(), AllocError>
    requires { AreWithin from (from + length olds.now) news.now }
    ensures { OnOk result ((ts : List Did) → IsStored storage.old ts → IsStored storage.new (ts ++ renewed from news.now olds.now)) }
{
    let mut done = 0;
    for new in news {
        let at = new.at - from;
        store_all(storage, &olds[done..at])?;
        storage.add(&new.item)?;
        done = at + 1;
    }
    store_all(storage, &olds[done..])
}
