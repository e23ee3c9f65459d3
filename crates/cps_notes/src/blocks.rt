//! Where the blocks of a source stand.

use cps_batch::Source;
use cps_final::Finals;
use cps_list::View;
use cps_page::{Block, BlockName};
use cps_state::{Answer, Hashing, Key, Lookup, Trace};
use cps_text::Name;
use std::alloc::{AllocError, Global};
use std::collections::HashMap;

/// The blocks that have words, and the literals, by their addresses.
pub fn list_blocks(
    alloc: Global,
    source: &Source,
    traces: &[Trace],
) -> Result<Vec<Block>, AllocError> {
    let finals = source.finals();
    let mut blocks = Vec::new(alloc);
    push_block(&mut blocks, BlockName::Nominal, 0, words_in(finals, None))?;
    push_literals(&mut blocks, finals)?;
    let mut named = NamedBlocks::of(alloc, finals.hashing());
    named.take_lines(traces)?;
    for name in &named.names {
        if let Some(base) = finals.base(Some(*name)) {
            let words = words_in(finals, Some(*name));
            let address = base.offset.unsigned_abs();
            push_block(&mut blocks, BlockName::Named(*name), address, words)?;
        }
    }
    Ok(blocks)
}

/// The named blocks of lines, in their order.
#[derive(Drop)]
struct NamedBlocks {
    names: Vec<Name>,
    known: HashMap<Name, bool, Hashing>,
}

impl NamedBlocks {
    fn of(alloc: Global, hashing: Hashing) -> NamedBlocks {
        NamedBlocks {
            names: Vec::new(alloc),
            known: HashMap::with_hasher(alloc, hashing),
        }
    }

    /// Takes what lines do in pass one: where one is put into a block, it puts the block's counter.
    fn take_lines(&mut self, traces: &[Trace]) -> Result<(), AllocError> {
        for trace in traces {
            for put in trace.puts() {
                if let Key::Counter(Some(name)) = put.key {
                    self.take(name)?;
                }
            }
        }
        Ok(())
    }

    /// Takes a block.
    fn take(&mut self, name: Name) -> Result<(), AllocError> {
        if self.known.get(&name).is_none() {
            self.known.insert(name, true)?;
            self.names.push(name)?;
        }
        Ok(())
    }
}

/// The words of a block up to where the next would stand; one that is begun counts whole.
fn words_in(finals: &Finals, block: Option<Name>) -> u64 {
    match finals.state().ask(&Key::Counter(block)) {
        Some(Answer::Counter(place)) if place.used > 0 => u64::from(place.word).saturating_add(1),
        Some(Answer::Counter(place)) => u64::from(place.word),
        _ => 0,
    }
}

fn push_block(
    blocks: &mut Vec<Block>,
    name: BlockName,
    address: u64,
    words: u64,
) -> Result<(), AllocError> {
    if words == 0 {
        return Ok(());
    }
    blocks.push(Block {
        name,
        address,
        words,
    })?;
    Ok(())
}

/// The literals stand behind the nominal block.
fn push_literals(blocks: &mut Vec<Block>, finals: &Finals) -> Result<(), AllocError> {
    let pool = finals.pool();
    let Some(first) = pool.first() else {
        return Ok(());
    };
    let address = finals.literal_address(*first);
    push_block(blocks, BlockName::Literals, address, pool.len() as u64)
}
