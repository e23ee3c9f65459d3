ghost use Rattle.std.specs.Prelude.{◌≡◌, ◌<◌, ◌^◌, ◌≤◌, [], ◌∷◌, IfOk, length};
ghost use Rattle.cps_expr.specs.declared.machine.Machine.TheVariants.{Pp};
ghost use Rattle.cps_code.specs.Form.{filled};
ghost use Rattle.cps_code.specs.Operand.{IsOperand};
ghost use Rattle.cps_code.specs.PeripheralForms.{IsPpForm, one_word, two_words, hole_of_d, hole_of_constant, hole_of_m, holes_of_d};

use crate::filled::Filled;
use crate::filling_holes::fill_holes;
use crate::hole::{Hole, HoleKind, Operand};
use cps_expr::Expr;
use std::alloc::{AllocError, Global};
use std::marker::Model;

/// The bits of a word.
const WORD: u8 = 12;

/// The bits of the operation, and of d behind it.
const HALF: u8 = 6;

/// The form of a statement of a peripheral processor: a code of one word of 12 bits or of two, with holes.
#[derive(Drop)]
pub struct PpForm {
    bits: u8,
    code: u64,
    holes: Vec<Hole>,
}

impl Model for PpForm {
    ghost use Rattle.std.specs.Prelude.{false};
    ghost use Rattle.cps_code.specs.Form.{Form};
    ghost use Rattle.cps_code.specs.PeripheralForms.{IsPpForm};

    ghost Value = { Form };

    ghost view = { λ form. record { bits = form.bits; code = form.code; holes = form.holes.items; forces_after = false } };

    ghost invariant = { λ form. IsPpForm (record { bits = form.bits; code = form.code; holes = form.holes.items; forces_after = false }) };
}

impl PpForm {
    /// One word without operands.
    pub(crate) fn bare(alloc: Global, number: u8) -> PpForm
        requires { number < 64 }
        ensures { result ≡ one_word number [] }
    {
        PpForm {
            bits: WORD,
            code: u64::from(number) << HALF,
            holes: Vec::new(alloc),
        }
    }

    /// One word with d.
    pub(crate) fn short(
        alloc: Global,
        number: u8,
        kind: HoleKind,
        expression: Expr,
    ) -> Result<PpForm, AllocError>
        requires { number < 64 }
        ensures { IfOk result (λ form. form ≡ one_word number (hole_of_d kind expression ∷ [])) }
    {
        let mut holes = Vec::new(alloc);
        holes.push(Hole {
            first: HALF,
            width: HALF,
            kind,
            operand: Operand::Expression(expression),
        })?;
        Ok(PpForm {
            bits: WORD,
            code: u64::from(number) << HALF,
            holes,
        })
    }

    /// Two words with a constant of 18 bits.
    pub(crate) fn constant(
        alloc: Global,
        number: u8,
        operand: Operand,
    ) -> Result<PpForm, AllocError>
        requires number { number < 64 }
        requires fits { IsOperand Pp operand }
        ensures { IfOk result (λ form. form ≡ two_words number (hole_of_constant operand ∷ [])) }
    {
        let mut holes = Vec::new(alloc);
        holes.push(Hole {
            first: HALF,
            width: HALF + WORD,
            kind: HoleKind::Value,
            operand,
        })?;
        Ok(PpForm {
            bits: 2 * WORD,
            code: u64::from(number) << (HALF + WORD),
            holes,
        })
    }

    /// Two words: m is the second, and d may stand in the first.
    pub(crate) fn memory(
        alloc: Global,
        number: u8,
        address: Operand,
        index: Option<Expr>,
    ) -> Result<PpForm, AllocError>
        requires number { number < 64 }
        requires fits { IsOperand Pp address }
        ensures { IfOk result (λ form. form ≡ two_words number (hole_of_m address ∷ holes_of_d index)) }
    {
        let mut holes = Vec::new(alloc);
        holes.push(Hole {
            first: WORD,
            width: WORD,
            kind: HoleKind::Value,
            operand: address,
        })?;
        if let Some(index) = index {
            holes.push(Hole {
                first: HALF,
                width: HALF,
                kind: HoleKind::Value,
                operand: Operand::Expression(index),
            })?;
        }
        Ok(PpForm {
            bits: 2 * WORD,
            code: u64::from(number) << (HALF + WORD),
            holes,
        })
    }

    /// How long the code is: 12 or 24 bits.
    pub fn bits(&self) -> u8
        ensures bits { result ≡ self.now.bits }
        ensures form { IsPpForm self.now }
    {
        self.bits
    }

    /// The holes, in the order of their operands; two at most.
    pub fn holes(&self) -> &[Hole]
        ensures holes { result.now ≡ self.now.holes }
        ensures few { length self.now.holes ≤ 2 }
    {
        self.holes.as_slice()
    }

    /// Whether a forcing is pending after the statement: never, since each statement of a peripheral processor begins a word.
    pub fn forces_after(&self) -> bool
        ensures { result ≡ self.now.forces_after }
    {
        let _bits = self.bits;
        false
    }

    /// The code with these numbers in its holes, one for each hole: for a target the distance to it.
    pub fn fill(&self, numbers: &[i64]) -> Filled
        requires one_each { length numbers.now ≡ length self.now.holes }
        ensures filled { result ≡ filled self.now numbers.now }
        ensures fits { result.digits < 2 ^ self.now.bits }
    {
        fill_holes(self.bits, self.code, &self.holes, numbers)
    }
}
