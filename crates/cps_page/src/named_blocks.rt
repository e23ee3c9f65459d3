//! The named blocks to which links can lead.
ghost use Rattle.std.specs.Prelude.{OnOk, IfOk};
ghost use Rattle.cps_page.specs.Code.Making.{AreBlocks};

use crate::beside::{Block, BlockName};
use crate::entries::is_written;
use cps_markup::is_among;
use cps_text::Name;
use std::alloc::{AllocError, Global};

/// The names of blocks, each once.
pub fn list_names(alloc: Global, blocks: &[Block]) -> Result<Vec<Name>, AllocError>
    ensures { IfOk result (λ names. AreBlocks names.items) }
{
    let mut names = Vec::new(alloc);
    for block in blocks {
        if let BlockName::Named(name) = block.name {
            add_name(&mut names, name)?;
        }
    }
    Ok(names)
}

/// Adds a name that is none of the others.
fn add_name(names: &mut Vec<Name>, name: Name) -> Result<(), AllocError>
    requires { AreBlocks names.old.items }
    ensures { OnOk result (AreBlocks names.new.items) }
{
    if is_written(name) && !is_among(names, name) {
        names.push(name)?;
    }
    Ok(())
}
