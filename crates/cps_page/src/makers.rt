//! The lines that made the digits of words.

use cps_list::View;
use cps_markup::{DigitLines, MadeBits};
use cps_state::{limit_of, word_bits};
use std::alloc::{AllocError, Global};

/// The lines that made the digits of the words of a source. Those of literals no line made. What stands over other bits is put before these.
pub fn list_makers<V: View>(alloc: Global, view: &V) -> Result<DigitLines, AllocError> {
    let mut makers = DigitLines::new(alloc, word_bits(view.finals().machine()));
    leave_literals(&mut makers, view)?;
    for behind in 0..view.count() {
        let number = view.count().saturating_sub(behind);
        put_line(&mut makers, view, number)?;
    }
    Ok(makers)
}

/// Where a literal stands it stands over what lines made.
fn leave_literals<V: View>(makers: &mut DigitLines, view: &V) -> Result<(), AllocError> {
    let finals = view.finals();
    let limit = limit_of(finals.machine());
    for word in finals.pool() {
        let address = finals.literal_address(*word);
        if address < u64::from(limit) {
            makers.leave(address as u32)?;
        }
    }
    Ok(())
}

/// The bits of a line, the last first.
fn put_line<V: View>(makers: &mut DigitLines, view: &V, number: u32) -> Result<(), AllocError> {
    let Some(outcome) = view.outcome(number) else {
        return Ok(());
    };
    for piece in outcome.pieces().iter().rev() {
        let made = MadeBits {
            address: piece.address,
            words: piece.times,
            first: piece.first,
            width: piece.width,
        };
        makers.put(number, made)?;
    }
    Ok(())
}
