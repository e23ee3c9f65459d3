//! Instructions, whichever machine's they are.
ghost use Rattle.std.specs.Prelude.{◌≡◌, ◌<◌, ◌^◌, ◌≤◌, length};
ghost use Rattle.cps_code.specs.Form.{filled};

use cps_code::{CpForm, Filled, Hole, PpForm};
use std::marker::Model;

/// The form of an instruction, by the machine that has it.
#[derive(Drop)]
enum MachineForm {
    Central(CpForm),
    Peripheral(PpForm),
}

/// The form of an instruction of either machine: a code with holes.
#[derive(Drop)]
pub struct InstructionForm {
    form: MachineForm,
}

impl Model for InstructionForm {
    ghost use Rattle.cps_code.specs.Form.{Form};
    ghost use Rattle.cps_state.specs.Instruction.{form_in};

    ghost Value = { Form };

    ghost view = { λ instruction. form_in instruction.form };
}

impl InstructionForm {
    /// Of the central processor.
    pub fn central(form: CpForm) -> InstructionForm
        ensures { result ≡ form }
    {
        InstructionForm {
            form: MachineForm::Central(form),
        }
    }

    /// Of a peripheral processor.
    pub fn peripheral(form: PpForm) -> InstructionForm
        ensures { result ≡ form }
    {
        InstructionForm {
            form: MachineForm::Peripheral(form),
        }
    }

    /// How long the code is.
    pub fn bits(&self) -> u8
        ensures bits { result ≡ self.now.bits }
        ensures short { result ≤ 30 }
    {
        match &self.form {
            MachineForm::Central(form) => form.bits(),
            MachineForm::Peripheral(form) => form.bits(),
        }
    }

    /// The holes, in the order of their operands; two at most.
    pub fn holes(&self) -> &[Hole]
        ensures holes { result.now ≡ self.now.holes }
        ensures few { length self.now.holes ≤ 2 }
    {
        match &self.form {
            MachineForm::Central(form) => form.holes(),
            MachineForm::Peripheral(form) => form.holes(),
        }
    }

    /// The code with these numbers in its holes, one for each hole: for a target the distance to it.
    pub fn fill(&self, numbers: &[i64]) -> Filled
        requires one_each { length numbers.now ≡ length self.now.holes }
        ensures filled { result ≡ filled self.now numbers.now }
        ensures fits { result.digits < 2 ^ self.now.bits }
    {
        match &self.form {
            MachineForm::Central(form) => form.fill(numbers),
            MachineForm::Peripheral(form) => form.fill(numbers),
        }
    }
}
