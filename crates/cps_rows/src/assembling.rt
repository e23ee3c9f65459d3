//! Batch assembly of a source. Only here it is called.
use cps_batch::batch;
use cps_list::Part;
use cps_state::Hashing;
use cps_text::Counted;
use std::alloc::Global;

/// The text that batch assembly writes of a source. It is empty where there is no memory.
pub fn assemble(alloc: Global, source: &[u8], part: Part) -> Vec<u8> {
    let mut reader = Counted::new(source);
    let mut writer = Counted::new(Vec::new(alloc));
    let _ = batch(alloc, Hashing::by(1), &mut reader, &mut writer, part);
    writer.into_inner()
}
