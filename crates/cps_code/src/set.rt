ghost use Rattle.std.specs.Prelude.{◌≡◌, ◌<◌, ◌+◌, ◌*◌, [], ◌∷◌, Some, None, false, IfSome, option_map};
ghost use Rattle.cps_code.specs.declared.hole.Operand.{Operand};
ghost use Rattle.cps_code.specs.Code.Terms.{IsRegister, AreRegisters, register_list};
ghost use Rattle.cps_code.specs.Digits.{AreDigits};
ghost use Rattle.cps_code.specs.Code.FoundForms.{set_form, set_form_as_it_stands, long_form, short_form};

use super::sum::Registers;
use crate::digits::Digits;
use crate::register::{RegisterLetter, RegisterTerm};

/// The four digits of a set instruction before its constant.
pub fn code_with_constant(digits: Digits, registers: Registers) -> Option<u16>
    requires known { AreDigits digits }
    requires digits { AreRegisters registers }
    ensures form { (constant : Operand)
        → set_form digits (register_list registers) (Some constant) ≡ option_map (λ code. long_form code constant false) result }
    ensures small { IfSome result (λ code. code < 4096) }
{
    match registers {
        Registers::Absent => Some(four_digits(digits.f, 1, digits.i, 0)),
        Registers::One(
            RegisterTerm {
                is_minus: false,
                letter: RegisterLetter::A,
                digit,
            },
        ) => Some(four_digits(digits.f, 0, digits.i, digit)),
        Registers::One(
            RegisterTerm {
                is_minus: false,
                letter: RegisterLetter::B,
                digit,
            },
        ) => Some(four_digits(digits.f, 1, digits.i, digit)),
        Registers::One(
            RegisterTerm {
                is_minus: false,
                letter: RegisterLetter::X,
                digit,
            },
        ) => Some(four_digits(digits.f, 2, digits.i, digit)),
        _ => None,
    }
}

/// The five digits of a set instruction without a constant.
pub fn code_without_constant(digits: Digits, registers: Registers) -> Option<u16>
    requires known { AreDigits digits }
    requires digits { AreRegisters registers }
    ensures form { set_form digits (register_list registers) None ≡ option_map short_form result }
    ensures small { IfSome result (λ code. code < 32768) }
{
    match registers {
        Registers::Absent => None,
        Registers::One(register) => code_alone(digits, register),
        Registers::Two(first, second) => match code_of_pair(digits, first, second) {
            Some(code) => Some(code),
            None => code_of_pair(digits, second, first),
        },
    }
}

fn code_alone(digits: Digits, register: RegisterTerm) -> Option<u16>
    requires known { AreDigits digits }
    requires digit { IsRegister register }
    ensures form { set_form digits (register ∷ []) None ≡ option_map short_form result }
    ensures small { IfSome result (λ code. code < 32768) }
{
    match register {
        RegisterTerm {
            is_minus: false,
            letter: RegisterLetter::X,
            digit,
        } => Some(four_digits(digits.f, 3, digits.i, digit) * 8),
        RegisterTerm {
            is_minus: false,
            letter: RegisterLetter::A,
            digit,
        } => Some(four_digits(digits.f, 4, digits.i, digit) * 8),
        RegisterTerm {
            is_minus: false,
            letter: RegisterLetter::B,
            digit,
        } => Some(four_digits(digits.f, 6, digits.i, digit) * 8),
        RegisterTerm {
            is_minus: true,
            letter: RegisterLetter::B,
            digit,
        } => Some(four_digits(digits.f, 7, digits.i, 0) * 8 + u16::from(digit)),
        _ => None,
    }
}

/// The digits for two registers in the order of a row: the first is j, the second k.
fn code_of_pair(digits: Digits, j: RegisterTerm, k: RegisterTerm) -> Option<u16>
    requires known { AreDigits digits }
    requires digits { IsRegister j × IsRegister k }
    ensures form { set_form_as_it_stands digits (j ∷ k ∷ []) None ≡ option_map short_form result }
    ensures small { IfSome result (λ code. code < 32768) }
{
    let second = match (j.letter, j.is_minus, k.letter, k.is_minus) {
        (RegisterLetter::X, false, RegisterLetter::B, false) => 3,
        (RegisterLetter::A, false, RegisterLetter::B, false) => 4,
        (RegisterLetter::A, false, RegisterLetter::B, true) => 5,
        (RegisterLetter::B, false, RegisterLetter::B, false) => 6,
        (RegisterLetter::B, false, RegisterLetter::B, true) => 7,
        _ => return None,
    };
    Some(four_digits(digits.f, second, digits.i, j.digit) * 8 + u16::from(k.digit))
}

/// Four octal digits, one after the other.
pub fn four_digits(a: u8, b: u8, c: u8, d: u8) -> u16
    requires a { a < 8 }
    requires b { b < 8 }
    requires c { c < 8 }
    requires d { d < 8 }
    ensures value { result ≡ ((a * 8 + b) * 8 + c) * 8 + d }
    ensures small { result < 4096 }
{
    ((u16::from(a) * 8 + u16::from(b)) * 8 + u16::from(c)) * 8 + u16::from(d)
}
