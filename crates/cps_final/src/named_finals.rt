//! What the statements of a run of lines name for pass two.
ghost use Rattle.std.specs.Prelude.{◌≡◌, [], flat_map, map, nat_eq, IfOk, OnOk};
ghost use Rattle.std.specs.List.{list_all, list_any};
ghost use Rattle.std.specs.Option.{option_eq};
ghost use Rattle.cps_expr.specs.Value.{same_name};
ghost use Rattle.cps_final.specs.Finals.{label, block as block_named, literal};
ghost use Rattle.cps_final.specs.Outcome.{labels_read, blocks_named, blocks_shown, blocks_stood};
ghost use Rattle.cps_final.specs.NamedFinals.{statements_of, names_in, labels_named, all_blocks_named, literals_named, all_pass};
ghost use Rattle.cps_final.specs.Code.NamesGathering.{label_of, contents_labels};
ghost use Rattle.indexmap.specs.IndexSet.{insert_all, insert_key};

use crate::literals::list_literals;
use crate::naming::Naming;
use cps_expr::is_same_name;
use cps_state::{Content, Hashing, Item, Made, SetValue, Shown, Stand, Trace};
use cps_text::Name;
use indexmap::IndexSet;
use std::alloc::{AllocError, Global};
use std::hash::Hash;
use std::marker::Model;

/// What the statements of a run of lines name, each once, in lists without room for more.
#[derive(Drop)]
pub struct NamedFinals {
    labels: Vec<Name>,
    blocks: Vec<Option<Name>>,
    literals: Vec<u64>,
}

impl Model for NamedFinals {
    ghost use Rattle.cps_final.specs.NamedFinals.{NamedFinals};

    ghost Value = { NamedFinals };

    ghost view = { λ names. record { labels = names.labels.items; blocks = names.blocks.items; literals = names.literals.items } };
}

impl NamedFinals {
    /// Of the statements of lines that did this.
    pub fn of(alloc: Global, hashing: Hashing, traces: &[Trace]) -> Result<NamedFinals, AllocError>
        ensures { IfOk result (λ names. names ≡ names_in traces.now) }
    {
        let labels = list_labels(alloc, hashing, traces)?;
        let blocks = list_blocks(alloc, hashing, traces)?;
        let literals = list_literals_once(alloc, hashing, traces)?;
        Ok(NamedFinals {
            labels,
            blocks,
            literals,
        })
    }

    /// The labels that the statements read.
    pub fn labels(&self) -> &[Name]
        ensures { result.now ≡ self.now.labels }
    {
        self.labels.as_slice()
    }

    /// The blocks of their places and of their values.
    pub fn blocks(&self) -> &[Option<Name>]
        ensures { result.now ≡ self.now.blocks }
    {
        self.blocks.as_slice()
    }

    /// Their literal words.
    pub fn literals(&self) -> &[u64]
        ensures { result.now ≡ self.now.literals }
    {
        self.literals.as_slice()
    }

    /// Whether all of them pass a test. Takes no memory.
    pub fn all_pass<N: Naming>(&self, naming: &N) -> bool
        ensures { result ≡ all_pass (N.passes naming.now) self.now }
    {
        labels_pass(self.labels(), naming)
            && blocks_pass(self.blocks(), naming)
            && literals_pass(self.literals(), naming)
    }
}

// ---- a test of each

fn labels_pass<N: Naming>(labels: &[Name], naming: &N) -> bool
    ensures { result ≡ list_all (λ name. N.passes naming.now (label name)) labels.now }
{
    labels.iter().all(|name| naming.label(*name))
}

fn blocks_pass<N: Naming>(blocks: &[Option<Name>], naming: &N) -> bool
    ensures { result ≡ list_all (λ name. N.passes naming.now (block_named name)) blocks.now }
{
    blocks.iter().all(|name| naming.block(*name))
}

fn literals_pass<N: Naming>(literals: &[u64], naming: &N) -> bool
    ensures { result ≡ list_all (λ word. N.passes naming.now (literal word)) literals.now }
{
    literals.iter().all(|word| naming.literal(*word))
}

// ---- each once

/// What was found so far, each once.
type FoundSet<T> = IndexSet<T, Hashing>;

/// Nothing yet.
fn none_found<T: Eq + Hash>(alloc: Global, hashing: Hashing) -> FoundSet<T>
    ensures { result.keys ≡ [] }
{
    IndexSet::with_hasher(alloc, hashing)
}

/// A list of it, without room for more.
fn list_of<T: Copy>(alloc: Global, found: &[T]) -> Result<Vec<T>, AllocError>
    ensures { IfOk result (λ list. list.items ≡ found.now) }
{
    let mut list = Vec::with_capacity(alloc, found.len())?;
    list.extend_from_slice(found)?;
    Ok(list)
}

// ---- labels

fn list_labels(alloc: Global, hashing: Hashing, traces: &[Trace]) -> Result<Vec<Name>, AllocError>
    ensures { IfOk result (λ labels. labels.items ≡ labels_named (statements_of traces.now)) }
{
    let mut found = none_found(alloc, hashing);
    for trace in traces {
        insert_labels(&mut found, trace.items())?;
    }
    list_of(alloc, found.as_slice())
}

fn insert_labels(found: &mut FoundSet<Name>, items: &[Item]) -> Result<(), AllocError>
    ensures { OnOk result (found.new.keys ≡ insert_all same_name found.old.keys (flat_map (λ item. labels_read item.made) items.now)) }
{
    for item in items {
        insert_labels_read(found, &item.made)?;
    }
    Ok(())
}

fn insert_labels_read(found: &mut FoundSet<Name>, made: &Made) -> Result<(), AllocError>
    ensures { OnOk result (found.new.keys ≡ insert_all same_name found.old.keys (labels_read made.now)) }
{
    insert_contents_labels(found, made.held(), made.contents())
}

fn insert_contents_labels(
    found: &mut FoundSet<Name>,
    held: &[SetValue],
    contents: &[Content],
) -> Result<(), AllocError>
    ensures { OnOk result (found.new.keys ≡ insert_all same_name found.old.keys (contents_labels held.now contents.now)) }
{
    for content in contents {
        for hole in content.holes() {
            insert_free(found, held, hole.operand.names())?;
        }
    }
    Ok(())
}

fn insert_free(
    found: &mut FoundSet<Name>,
    held: &[SetValue],
    names: &[Name],
) -> Result<(), AllocError>
    ensures { OnOk result (found.new.keys ≡ insert_all same_name found.old.keys (flat_map (label_of held.now) names.now)) }
{
    for name in names {
        insert_if_free(found, held, *name)?;
    }
    Ok(())
}

/// Inserts a symbol that stands for its label: one that SET had given no value.
fn insert_if_free(
    found: &mut FoundSet<Name>,
    held: &[SetValue],
    name: Name,
) -> Result<(), AllocError>
    ensures { OnOk result (found.new.keys ≡ insert_all same_name found.old.keys (label_of held.now name)) }
{
    if !is_held(held, name) {
        found.insert(name)?;
    }
    Ok(())
}

fn is_held(held: &[SetValue], name: Name) -> bool
    ensures { result ≡ list_any (λ set. same_name set.name name) held.now }
{
    held.iter().any(|set| is_same_name(set.name, name))
}

// ---- blocks

fn list_blocks(
    alloc: Global,
    hashing: Hashing,
    traces: &[Trace],
) -> Result<Vec<Option<Name>>, AllocError>
    ensures { IfOk result (λ blocks. blocks.items ≡ all_blocks_named (statements_of traces.now)) }
{
    let mut found = none_found(alloc, hashing);
    for trace in traces {
        insert_blocks(&mut found, trace.items())?;
    }
    list_of(alloc, found.as_slice())
}

fn insert_blocks(found: &mut FoundSet<Option<Name>>, items: &[Item]) -> Result<(), AllocError>
    ensures { OnOk result (found.new.keys ≡ insert_all (option_eq same_name) found.old.keys (flat_map blocks_named items.now)) }
{
    for item in items {
        insert_blocks_named(found, item)?;
    }
    Ok(())
}

fn insert_blocks_named(found: &mut FoundSet<Option<Name>>, item: &Item) -> Result<(), AllocError>
    ensures { OnOk result (found.new.keys ≡ insert_all (option_eq same_name) found.old.keys (blocks_named item.now)) }
{
    insert_stood(found, item.stand)?;
    insert_shown(found, item.made.shown())?;
    insert_held_blocks(found, item.made.held())
}

fn insert_stood(found: &mut FoundSet<Option<Name>>, stand: Stand) -> Result<(), AllocError>
    ensures { OnOk result (found.new.keys ≡ insert_all (option_eq same_name) found.old.keys (blocks_stood stand)) }
{
    match stand {
        Stand::Nowhere => Ok(()),
        Stand::In(block) => insert_block(found, block),
    }
}

fn insert_shown(found: &mut FoundSet<Option<Name>>, shown: Shown) -> Result<(), AllocError>
    ensures { OnOk result (found.new.keys ≡ insert_all (option_eq same_name) found.old.keys (blocks_shown shown)) }
{
    match shown {
        Shown::Value(value) => insert_block(found, value.block),
        Shown::Address(value) => insert_block(found, value.block),
        Shown::Nothing | Shown::Start => Ok(()),
    }
}

fn insert_held_blocks(
    found: &mut FoundSet<Option<Name>>,
    held: &[SetValue],
) -> Result<(), AllocError>
    ensures { OnOk result (found.new.keys ≡ insert_all (option_eq same_name) found.old.keys (map (λ set. set.value.block) held.now)) }
{
    for set in held {
        insert_block(found, set.value.block)?;
    }
    Ok(())
}

fn insert_block(found: &mut FoundSet<Option<Name>>, block: Option<Name>) -> Result<(), AllocError>
    ensures { OnOk result (found.new.keys ≡ insert_key (option_eq same_name) found.old.keys block) }
{
    found.insert(block)?;
    Ok(())
}

// ---- literals

fn list_literals_once(
    alloc: Global,
    hashing: Hashing,
    traces: &[Trace],
) -> Result<Vec<u64>, AllocError>
    ensures { IfOk result (λ literals. literals.items ≡ literals_named (statements_of traces.now)) }
{
    let mut found = none_found(alloc, hashing);
    for trace in traces {
        let literals = list_literals(alloc, trace.items())?;
        insert_literals(&mut found, &literals)?;
    }
    list_of(alloc, found.as_slice())
}

fn insert_literals(found: &mut FoundSet<u64>, literals: &[u64]) -> Result<(), AllocError>
    ensures { OnOk result (found.new.keys ≡ insert_all nat_eq found.old.keys literals.now) }
{
    for literal in literals {
        found.insert(*literal)?;
    }
    Ok(())
}
