//! The lines that define macros.

use crate::document::Document;
use crate::folding_walk::FoldingWalk;
use crate::line_pairs::opener_of;
use cps_expr::is_same_name;
use cps_list::View;
use cps_state::Key;
use cps_text::Name;
use std::alloc::{AllocError, Global};

/// A macro, and the line of its MACRO, from 0.
#[derive(Clone, Copy)]
pub struct MacroPlace {
    pub name: Name,
    pub line: u32,
}

/// The macros of a document, in the order of the lines that end their bodies.
pub fn macro_places(alloc: Global, document: &Document) -> Result<Vec<MacroPlace>, AllocError> {
    let pairs = FoldingWalk::over(alloc, document)?.into_pairs();
    let mut places = Vec::new(alloc);
    let mut number: u32 = 0;
    for trace in document.session().traces() {
        for put in trace.puts() {
            if let Key::Macro(name) = put.key {
                let line = opener_of(&pairs, number);
                places.push(MacroPlace { name, line })?;
            }
        }
        number = number.saturating_add(1);
    }
    Ok(places)
}

/// The first line that defines a macro among some; the first line of all where none is there.
pub fn line_among(places: &[MacroPlace], name: Name) -> u32 {
    for place in places {
        if is_same_name(place.name, name) {
            return place.line;
        }
    }
    0
}
