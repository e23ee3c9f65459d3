//! What is told beside the texts of a source.

use crate::blocks::list_blocks;
use crate::causes::list_causes;
use crate::codes::CodeLister;
use crate::looks::list_looks;
use cps_batch::Source;
use cps_page::Beside;
use cps_state::Trace;
use std::alloc::{AllocError, Global};

/// What a page of a source tells beside its texts, from what its lines do in pass one. Causes are those of a check of the lines; sentences are the
/// manual's; a block ends where its next word would stand. Fails only without memory.
pub fn tell_beside(alloc: Global, source: &Source, traces: &[Trace]) -> Result<Beside, AllocError> {
    let causes = list_causes(alloc, source, traces)?;
    let blocks = list_blocks(alloc, source, traces)?;
    let looks = list_looks(alloc, traces)?;
    let mut lister = CodeLister::of(alloc, source);
    lister.take_lines(source, traces)?;
    let (forms, codes) = lister.into_parts();
    Ok(Beside {
        causes: causes.told,
        meant: causes.meant,
        forms,
        codes,
        blocks,
        looks,
    })
}
