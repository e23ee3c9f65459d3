//! A macro as it stands above a line.

use crate::document::Document;
use cps_expr::is_same_name;
use cps_state::{Answer, Key, Macro, Put};
use cps_text::Name;
use std::alloc::AllocError;

/// The macro that a name stands for in a line, from 0: the last that lines above it define.
pub fn macro_above(
    document: &Document,
    line: u32,
    name: Name,
) -> Result<Option<Macro>, AllocError> {
    let traces = document.session().traces();
    let end = (line as usize).min(traces.len());
    for trace in traces[..end].iter().rev() {
        for put in trace.puts() {
            if let Some(named) = macro_in(put, name)? {
                return Ok(Some(named));
            }
        }
    }
    Ok(None)
}

/// The macro that is put under a name.
fn macro_in(put: &Put, name: Name) -> Result<Option<Macro>, AllocError> {
    match (put.key, &put.answer) {
        (Key::Macro(key), Answer::Macro(named)) if is_same_name(key, name) => {
            Ok(Some(named.to_macro()?))
        }
        _ => Ok(None),
    }
}
