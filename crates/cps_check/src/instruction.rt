//! What is told of an instruction of either machine.
ghost use Rattle.std.specs.Prelude.{◌≡◌, IfOk, IfSome, is_some};
ghost use Rattle.cps_check.specs.Manual as told;
ghost use Rattle.cps_check.specs.Code.Kept.{sentence_values};

use crate::central::push_central;
use crate::names::full_name;
use crate::peripheral::push_peripheral;
use crate::sentences::{Sentence, central_sentences, peripheral_sentences};
use std::alloc::{AllocError, Global};

/// What is told of a word, if it is the name of an instruction, with the digit of a register or without it.
#[tactic(auto, using(crate::proofs::Words::told))]
pub fn instruction_text(alloc: Global, word: &[u8]) -> Result<Option<Vec<u8>>, AllocError>
    ensures told { IfOk result (λ text. is_some text ≡ told.is_instruction word.now) }
    ensures text { IfOk result (λ text. IfSome text (λ text. told.TellsInstruction word.now text.items)) }
{
    text_with(
        alloc,
        word,
        central_sentences(word),
        peripheral_sentences(word),
    )
}

/// The same, with sentences that tell what the forms do.
fn text_with(
    alloc: Global,
    word: &[u8],
    central: &'static [Sentence],
    peripheral: &'static [Sentence],
) -> Result<Option<Vec<u8>>, AllocError>
    ensures told { IfOk result (λ text. is_some text ≡ told.is_instruction word.now) }
    ensures text { IfOk result (λ text. IfSome text (λ text.
        text.items ≡ told.instruction_text (sentence_values central.now) (sentence_values peripheral.now) word.now)) }
{
    let mut text = Vec::new(alloc);
    let name = full_name(alloc, word)?;
    let is_central = push_central(alloc, &mut text, &name, central)?;
    let is_peripheral = push_peripheral(alloc, &mut text, word, peripheral)?;
    if is_central || is_peripheral {
        Ok(Some(text))
    } else {
        Ok(None)
    }
}
