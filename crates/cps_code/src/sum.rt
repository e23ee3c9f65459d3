ghost use Rattle.std.specs.Prelude.{◌≡◌, true, false, ◌<◌, [], ◌∷◌, MatchOption, length, ◌++◌, IfSome, IsSomeAnd, MatchBool, is_some, Some};
ghost use Rattle.cps_code.specs.Sum.{Sum, SumTerm, register, term_with, sum_of};
ghost use Rattle.cps_code.specs.Code.Terms.{pushed, register_list, IsKept, AreRegisters, IsRegister};
ghost use Rattle.cps_code.specs.Register.{register_of, letter_of};
ghost use Rattle.cps_expr.specs.Term.{Term, term_of};

use crate::digits::first_and_rest;
use crate::register::{RegisterLetter, RegisterTerm};
use cps_expr::{Expr, ExprFault, Radix, leading_sign, sign_at};
use cps_text::capital;
use std::alloc::Global;

/// The register terms of a sum, in their order.
#[derive(Clone, Copy)]
pub enum Registers {
    Absent,
    One(RegisterTerm),
    Two(RegisterTerm, RegisterTerm),
}

/// What is kept of a sum: its register terms, two at most, and the others, each in their order.
#[derive(Drop)]
pub struct KeptSum {
    pub registers: Registers,
    /// Whether there is a term that is no register.
    pub has_constant: bool,
    /// The expression of those terms; None where memory for it was refused.
    pub constant: Option<Expr>,
}

/// Reads a sum of signed registers and terms of an expression, to its end also where memory is refused.
/// None: the text is no such sum, or has more than two registers.
pub fn read_sum(alloc: Global, text: &[u8], radix: Radix) -> Option<KeptSum>
    ensures sum { MatchOption result
        ((sum : Sum) → sum_of radix text.now ≡ Some sum → 2 < length sum.registers)
        (λ kept. (sum : Sum) × (sum_of radix text.now ≡ Some sum) × IsKept kept sum) }
    ensures registers { IfSome result (λ kept. AreRegisters kept.registers) }
{
    let mut kept = KeptSum {
        registers: Registers::Absent,
        has_constant: false,
        constant: Some(Expr::new(alloc)),
    };
    let (mut is_minus, mut rest) = leading_sign(text);
    'terms: loop {
        let (term, later) = rest.split_at(sign_at(rest));
        if !add_term(alloc, &mut kept, term, is_minus, radix) {
            return None;
        }
        match first_and_rest(later) {
            None => return Some(kept),
            Some((sign, more)) => {
                is_minus = sign == b'-';
                rest = more;
            }
        }
    }
}

fn read_register(text: &[u8], is_minus: bool) -> Option<RegisterTerm>
    ensures register { result ≡ register_of is_minus text.now }
    ensures digit { IfSome result IsRegister }
{
    match text {
        [letter, digit @ b'0'..=b'7'] => match read_letter(*letter) {
            Some(letter) => Some(RegisterTerm {
                is_minus,
                letter,
                digit: *digit - b'0',
            }),
            None => None,
        },
        _ => None,
    }
}

fn read_letter(letter: u8) -> Option<RegisterLetter>
    ensures { result ≡ letter_of letter }
{
    match capital(letter) {
        b'A' => Some(RegisterLetter::A),
        b'B' => Some(RegisterLetter::B),
        b'X' => Some(RegisterLetter::X),
        _ => None,
    }
}

/// Adds the term that a text writes, at the end. False: it writes none, or a third register.
fn add_term(alloc: Global, kept: &mut KeptSum, text: &[u8], is_minus: bool, radix: Radix) -> bool
    ensures { (so_far : Sum) → IsKept kept.old so_far → MatchBool result
        ((term : SumTerm) × (term_with radix is_minus text.now ≡ Some term) × IsKept kept.new (pushed so_far term))
        ((term : SumTerm) → term_with radix is_minus text.now ≡ Some term → 2 < length (pushed so_far term).registers) }
{
    match read_register(text, is_minus) {
        Some(register) => add_register(kept, register),
        None => {
            kept.has_constant = true;
            add_other(alloc, &mut kept.constant, text, is_minus, radix)
        }
    }
}

/// Adds a register at the end. False: it is a third one.
fn add_register(kept: &mut KeptSum, term: RegisterTerm) -> bool
    requires { IsRegister term }
    ensures { (so_far : Sum) → IsKept kept.old so_far → MatchBool result
        (IsKept kept.new (pushed so_far (register term))) (2 < length (pushed so_far (register term)).registers) }
{
    match with_register(kept.registers, term) {
        Some(registers) => {
            kept.registers = registers;
            true
        }
        None => false,
    }
}

/// Adds a term of an expression at the end, or gives the expression up where memory is refused. False: the text writes none.
fn add_other(
    alloc: Global,
    constant: &mut Option<Expr>,
    text: &[u8],
    is_minus: bool,
    radix: Radix,
) -> bool
    ensures readable { result ≡ is_some (term_of radix is_minus text.now) }
    ensures term { (term : Term) → term_of radix is_minus text.now ≡ Some term → IfSome constant.new (λ after. IsSomeAnd constant.old (λ before. after ≡ before ++ term ∷ [])) }
{
    let added = match constant {
        Some(expression) => expression.add_term(is_minus, text, radix),
        None => Expr::new(alloc).add_term(is_minus, text, radix),
    };
    match added {
        Ok(()) => true,
        Err(ExprFault::Unreadable) => false,
        Err(ExprFault::Memory) => {
            *constant = None;
            true
        }
    }
}

/// The registers with one more. None: there are two already.
fn with_register(registers: Registers, register: RegisterTerm) -> Option<Registers>
    ensures { MatchOption result (length (register_list registers) ≡ 2) (λ more. register_list more ≡ register_list registers ++ register ∷ []) }
{
    match registers {
        Registers::Absent => Some(Registers::One(register)),
        Registers::One(first) => Some(Registers::Two(first, register)),
        Registers::Two(..) => None,
    }
}
