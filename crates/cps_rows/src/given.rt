//! What tests are given: names and lines.
use cps_text::{Line, Name};
use std::alloc::Global;
use std::process::Abort;

pub fn name(rt: &impl Abort, text: &[u8]) -> Name {
    Name::read(text).expect(rt, "a symbol")
}

pub fn line(rt: &impl Abort, alloc: Global, text: &[u8]) -> Line {
    Line::new(alloc, text).expect(rt, "a line")
}
