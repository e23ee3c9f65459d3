ghost use Rattle.std.specs.Prelude.{◌≡◌, ◌<◌, ◌^◌, ◌≤◌, length};
ghost use Rattle.cps_code.specs.Bits.{parcel_bits};
ghost use Rattle.cps_code.specs.Form.{IsForm, filled};
ghost use Rattle.cps_code.specs.Operand.{IsOperand};
ghost use Rattle.cps_expr.specs.declared.machine.Machine.TheVariants.{Cp};
ghost use Rattle.cps_code.specs.Code.FoundForms.{short_form, long_form, bare_form, count_form};

use super::filled::Filled;
use super::filling_holes::fill_holes;
use super::hole::{Hole, HoleKind, Operand};
use crate::widths::{CONSTANT, COUNT, PARCEL};
use cps_expr::Expr;
use std::marker::Model;

/// The form of a statement of the central processor: a code of 15 or 30 bits with holes.
#[derive(Drop)]
pub struct CpForm {
    bits: u8,
    forces_after: bool,
    code: u64,
    hole: Option<Hole>,
}

impl Model for CpForm {
    ghost use Rattle.std.specs.Prelude.{option_to_list};
    ghost use Rattle.cps_code.specs.Form.{Form, IsForm};

    ghost Value = { Form };

    ghost view = { λ form. record { bits = form.bits; code = form.code; holes = option_to_list form.hole; forces_after = form.forces_after } };

    ghost invariant = { λ form. IsForm (record { bits = form.bits; code = form.code; holes = option_to_list form.hole; forces_after = form.forces_after }) };
}

impl CpForm {
    /// A form of 15 bits.
    pub(crate) fn short(code: u16) -> CpForm
        requires { code < 2 ^ parcel_bits }
        ensures { result ≡ short_form code }
    {
        CpForm {
            bits: PARCEL,
            code: u64::from(code),
            hole: None,
            forces_after: false,
        }
    }

    /// A form of 30 bits: four digits and a constant of 0, with a forcing pending after it.
    pub(crate) fn bare(front: u16) -> CpForm
        requires { front < 2 ^ 12 }
        ensures { result ≡ bare_form front }
    {
        CpForm {
            bits: 2 * PARCEL,
            code: u64::from(front) << CONSTANT,
            hole: None,
            forces_after: true,
        }
    }

    /// A form of 15 bits: three digits and a count.
    pub(crate) fn counted(front: u16, count: Expr) -> CpForm
        requires { front < 2 ^ 9 }
        ensures { result ≡ count_form front count }
    {
        CpForm {
            bits: PARCEL,
            code: u64::from(front) << COUNT,
            hole: Some(Hole {
                first: PARCEL - COUNT,
                width: COUNT,
                kind: HoleKind::Count,
                operand: Operand::Expression(count),
            }),
            forces_after: false,
        }
    }

    /// A form of 30 bits: four digits and a constant of 18 bits.
    pub(crate) fn long(front: u16, operand: Operand, forces_after: bool) -> CpForm
        requires front { front < 2 ^ 12 }
        requires fits { IsOperand Cp operand }
        ensures { result ≡ long_form front operand forces_after }
    {
        CpForm {
            bits: 2 * PARCEL,
            code: u64::from(front) << CONSTANT,
            hole: Some(Hole {
                first: 2 * PARCEL - CONSTANT,
                width: CONSTANT,
                kind: HoleKind::Value,
                operand,
            }),
            forces_after,
        }
    }

    /// How long the code is: 15 or 30 bits.
    pub fn bits(&self) -> u8
        ensures bits { result ≡ self.now.bits }
        ensures form { IsForm self.now }
    {
        self.bits
    }

    /// The holes, from the left; one at most.
    pub fn holes(&self) -> &[Hole]
        ensures holes { result.now ≡ self.now.holes }
        ensures few { length self.now.holes ≤ 1 }
    {
        self.hole.as_slice()
    }

    /// Whether a forcing is pending after the statement, so that the next instruction begins a word.
    pub fn forces_after(&self) -> bool
        ensures { result ≡ self.now.forces_after }
    {
        self.forces_after
    }

    /// The code with these numbers in its holes, one for each hole.
    pub fn fill(&self, numbers: &[i64]) -> Filled
        requires one_each { length numbers.now ≡ length self.now.holes }
        ensures filled { result ≡ filled self.now numbers.now }
        ensures fits { result.digits < 2 ^ self.now.bits }
    {
        fill_holes(self.bits, self.code, self.hole.as_slice(), numbers)
    }
}
