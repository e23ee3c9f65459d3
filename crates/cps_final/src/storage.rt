//! Where the blocks and literals of a program stand, and its name.
ghost use Rattle.std.specs.Prelude.{◌≡◌, ◌+◌, ◌<◌, ◌≤◌, ◌^◌, [], length, nat_abs, nat_eq, OnOk, OnErr, IfOk, IfSome, IsTrue};
ghost use Rattle.std.specs.Option.{option_or};
ghost use Rattle.cps_expr.specs.Value.{plain, limited, IsInRange};
ghost use Rattle.cps_final.specs.Finals.{first_program, words_to_named, base_of, final_value, block as block_named, literal};
ghost use Rattle.cps_final.specs.Code.Gathering.{grown_by, layout_kept};
ghost use Rattle.cps_final.specs.Addresses.{base_in, final_of};
ghost use Rattle.cps_final.specs.Pool.{literals_among};
ghost use Rattle.cps_final.specs.Code.Storage.{stored, IsStored, StoresBehind, StoresMore, HasRoom, PlacesStand};
ghost use Rattle.indexmap.specs.IndexSet.{insert_all, insert_key, spare};

use crate::blocks::Blocks;
use crate::literals::list_literals;
use cps_expr::Value;
use cps_state::{Hashing, Item, Put, Trace};
use cps_text::Name;
use indexmap::IndexSet;
use std::alloc::{AllocError, Global};

/// The blocks of some lines with their words, their literals, and the name that they give the program.
#[derive(Drop)]
pub struct Storage {
    alloc: Global,
    blocks: Blocks,
    pool: IndexSet<u64, Hashing>,
    program: Option<Name>,
}

impl Storage {
    /// Of no line. Takes no memory.
    pub fn new(alloc: Global, hashing: Hashing) -> Storage
        ensures { IsStored result [] }
    {
        Storage {
            alloc,
            blocks: Blocks::new(alloc, hashing),
            pool: IndexSet::with_hasher(alloc, hashing),
            program: None,
        }
    }

    /// Makes room for what a line puts, and for its literals, which it gives.
    #[inline(always)]
    pub(crate) fn make_room(&mut self, puts: &[Put], items: &[Item]) -> Result<Vec<u64>, AllocError>
        ensures same { stored self.new ≡ stored self.old }
        ensures literals { IfOk result (λ literals. literals.items ≡ literals_among items.now) }
        ensures room { IfOk result (λ literals. HasRoom self.new puts.now literals.items) }
    {
        let literals = list_literals(self.alloc, items)?;
        self.blocks.reserve(puts)?;
        self.pool.reserve(literals.len())?;
        Ok(literals)
    }

    /// With one more line, whose literals these are, where there is room for it.
    #[inline(always)]
    pub(crate) fn take(&mut self, puts: &[Put], items: &[Item], literals: &[u64])
        requires room { HasRoom self.old puts.now literals.now }
        requires literals { literals.now ≡ literals_among items.now }
        ensures layout { (stored self.new).layout ≡ grown_by (stored self.old).layout puts.now }
        ensures pool { (stored self.new).pool ≡ insert_all nat_eq (stored self.old).pool (literals_among items.now) }
        ensures program { (stored self.new).program ≡ option_or (stored self.old).program (first_program items.now) }
    {
        self.blocks.put_all(puts);
        insert_literals(&mut self.pool, literals);
        if self.program.is_none() {
            self.program = first_program(items);
        }
    }

    /// With one more line. Where there is no memory, nothing changes.
    pub fn add(&mut self, trace: &Trace) -> Result<(), AllocError>
        ensures ok { OnOk result (StoresMore self.old self.new trace.now) }
        ensures err { OnErr result (stored self.new ≡ stored self.old) }
    {
        let literals = self.make_room(trace.puts(), trace.items())?;
        self.take(trace.puts(), trace.items(), &literals);
        Ok(())
    }

    /// With all that was kept of lines behind these, in one step for each block and literal. Where there is no memory, nothing changes.
    pub fn join(&mut self, other: &Storage) -> Result<(), AllocError>
        ensures ok { OnOk result (StoresBehind self.old other.now self.new) }
        ensures err { OnErr result (stored self.new ≡ stored self.old) }
    {
        let literals = other.pool();
        self.pool.reserve(literals.len())?;
        self.blocks.join(&other.blocks)?;
        insert_literals(&mut self.pool, literals);
        self.program = self.program.or(other.program);
        Ok(())
    }

    /// The same once more.
    pub fn copy(&self) -> Result<Storage, AllocError>
        ensures { IfOk result (λ copy. stored copy ≡ stored self.now) }
    {
        Ok(Storage {
            alloc: self.alloc,
            blocks: self.blocks.copy(self.alloc)?,
            pool: copy_pool(self.alloc, &self.pool)?,
            program: self.program,
        })
    }

    /// Whether each block and each literal stands where it stands in the other, by a test that may say no where they do.
    pub fn places_stand(&self, other: &Storage) -> bool
        ensures { IsTrue result → PlacesStand (stored self.now) (stored other.now) }
    {
        if !self.blocks.are_same_named(&other.blocks) || self.pool() != other.pool() {
            return false;
        }
        if self.pool.is_empty() && self.blocks.has_no_named() {
            return true;
        }
        self.blocks.size(None) == other.blocks.size(None)
    }

    /// The program's name: the first that a statement gives.
    pub fn program(&self) -> Option<Name>
        ensures { result ≡ (stored self.now).program }
    {
        self.program
    }

    /// The literal words, in their order.
    pub fn pool(&self) -> &[u64]
        ensures { result.now ≡ (stored self.now).pool }
    {
        self.pool.as_slice()
    }

    /// The address of the first word of a block; None: the block has no put. The nominal block (None) stands at 0.
    #[inline(always)]
    pub fn base(&self, block: Option<Name>) -> Option<Value>
        ensures base { result ≡ final_value (stored self.now) (block_named block) }
        ensures range { IfSome result IsInRange }
    {
        let base = self.base_of(block)?;
        plain_in_range(base as i128)
    }

    /// The address of a literal, None for a word that is none.
    pub fn literal(&self, word: u64) -> Option<Value>
        ensures literal { result ≡ final_value (stored self.now) (literal word) }
        ensures range { IfSome result IsInRange }
    {
        let index = self.pool.get_index_of(&word)?;
        plain_in_range(i128::from(self.blocks.size(None)) + index as i128)
    }

    /// The address of the first word of a block; one that stands nowhere counts as at 0.
    pub(crate) fn address_of(&self, block: Option<Name>) -> u64
        ensures address { result ≡ base_in (final_value (stored self.now)) block }
        ensures bound { result < 2 ^ 60 }
    {
        let base = match block {
            None => return 0,
            Some(_) => self.base(block),
        };
        match base {
            Some(base) => magnitude(base),
            None => 0,
        }
    }

    /// A value with its block at its final address.
    pub fn final_of(&self, value: Value) -> Option<Value>
        ensures { result ≡ final_of (final_value (stored self.now)) value }
    {
        match value.block {
            None => value.limited(),
            Some(_) => plain_in_range(
                i128::from(value.offset) + i128::from(self.address_of(value.block)),
            ),
        }
    }

    /// The words before a block.
    fn base_of(&self, block: Option<Name>) -> Option<u128>
        ensures base { result ≡ base_of (stored self.now) block }
        ensures bound { IfSome result (λ base. base < 2 ^ 100) }
    {
        let Some(name) = block else {
            return Some(0);
        };
        let index = self.blocks.index_of(name)?;
        Some(self.words_to_named() + self.blocks.words_of_first(index))
    }

    /// The words of the nominal block and the pool.
    pub(crate) fn words_to_named(&self) -> u128
        ensures words { result ≡ words_to_named (stored self.now) }
        ensures bound { result < 2 ^ 65 }
    {
        u128::from(self.blocks.size(None)) + self.pool.len() as u128
    }
}

/// The literals of a pool once more. Takes no memory where there is none.
fn copy_pool(
    alloc: Global,
    pool: &IndexSet<u64, Hashing>,
) -> Result<IndexSet<u64, Hashing>, AllocError>
    ensures { IfOk result (λ copy. copy.keys ≡ pool.now.keys) }
{
    if pool.is_empty() {
        return Ok(IndexSet::with_hasher(alloc, *pool.hasher()));
    }
    pool.clone()
}

/// The pool with more literals, where there is room for them.
fn insert_literals(pool: &mut IndexSet<u64, Hashing>, literals: &[u64])
    requires { length literals.now ≤ spare pool.old }
    ensures { pool.new.keys ≡ insert_all nat_eq pool.old.keys literals.now }
{
    for literal in literals {
        insert_literal(pool, *literal);
    }
}

/// The pool with one more literal, once.
fn insert_literal(pool: &mut IndexSet<u64, Hashing>, literal: u64)
    requires { 0 < spare pool.old }
    ensures keys { pool.new.keys ≡ insert_key nat_eq pool.old.keys literal }
    ensures room { spare pool.old ≤ spare pool.new + 1 }
{
    let Ok(_) = pool.insert(literal) else {
        unreachable!();
    };
}

/// The first name that statements give the program.
fn first_program(items: &[Item]) -> Option<Name>
    ensures { result ≡ first_program items.now }
{
    for item in items {
        if let Some(name) = item.made.program() {
            return Some(name);
        }
    }
    None
}

/// A plain value, None beyond the range of expressions.
fn plain_in_range(number: i128) -> Option<Value>
    ensures value { result ≡ limited (plain number) }
    ensures range { IfSome result IsInRange }
{
    match i64::try_from(number) {
        Ok(offset) => Value::plain(offset).limited(),
        Err(_) => None,
    }
}

pub(crate) fn magnitude(value: Value) -> u64
    requires { IsInRange value }
    ensures magnitude { result ≡ nat_abs value.offset }
    ensures bound { result < 2 ^ 60 }
{
    value.offset.unsigned_abs()
}
