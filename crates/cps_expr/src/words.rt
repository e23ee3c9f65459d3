//! The words of DATA.
ghost use Rattle.std.specs.Prelude.{◌≡◌, ◌<◌, ℕ, List, Option, IfSome, length};
ghost use Rattle.cps_expr.specs.Reads.{Reads};
ghost use Rattle.cps_expr.specs.Row.{words_behind, words_of};
ghost use Rattle.cps_expr.specs.Code.WordsLeft.{words_left};

use crate::expr::ExprFault;
use crate::item::read_item;
use crate::machine::Machine;
use crate::radix::Radix;
use crate::reads::{keep, kept_items};
use crate::sequence::Sequence;
use std::alloc::Global;

/// The words of data items with a comma between two, up to a blank or the end.
pub(crate) fn read_words(
    alloc: Global,
    tail: &[u8],
    radix: Radix,
    machine: Machine,
) -> Result<Sequence<u64>, ExprFault>
    ensures { Reads result (words_of radix machine tail.now) }
{
    let mut kept = Some(Vec::new(alloc));
    let mut rest = tail;
    'items: loop {
        let Some((word, extent)) = read_item(rest, radix, machine) else {
            return Err(ExprFault::Unreadable);
        };
        keep(&mut kept, word);
        let (_, behind) = rest.split_at(extent);
        match behind_item(behind) {
            None => return Err(ExprFault::Unreadable),
            Some(None) => return kept_items(kept),
            Some(Some(text)) => rest = text,
        }
    }
}

/// The text that begins the next item, if one comes. None: neither an item nor the end can come.
fn behind_item(text: &[u8]) -> Option<Option<&[u8]>>
    ensures words { (read : List ℕ → Option (List ℕ)) → words_behind read text.now ≡ words_left read result }
    ensures shorter { IfSome result (λ next. IfSome next (λ rest. length rest.now < length text.now)) }
{
    match text {
        [] => Some(None),
        [b',', rest @ ..] => Some(Some(rest)),
        [b' ', ..] => Some(None),
        _ => None,
    }
}
