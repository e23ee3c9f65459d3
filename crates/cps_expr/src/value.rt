//! Values, and what operators make of them.
ghost use Rattle.std.specs.Prelude.{◌≡◌, ◌<◌, ℤ, SomeIff, IfSome, FitsSigned, length, position};
ghost use Rattle.std.specs.Int.{w64};
ghost use Rattle.cps_text.specs.declared.name.Name.{Name};
ghost use Rattle.cps_expr.specs.Value.{IsInRange, greatest, is_in_range, limited, plain, same_name, block_of_sum, block_of_difference, block_of_product, in_block, quotient, multiplied, sum_of, difference_of, added};

use crate::term::Operator;
use cps_text::Name;

/// The greatest magnitude of a plain value.
pub(crate) const GREATEST_PLAIN: u64 = (1 << 59) - 1;

/// The greatest magnitude of an offset in a block.
const GREATEST_OFFSET: u64 = 1 << 58;

/// A value: plain where it has no block, else an offset in that block, in words.
#[derive(Clone, Copy, Debug, PartialEq, Eq)]
pub struct Value {
    pub block: Option<Name>,
    pub offset: i64,
}

impl Value {
    /// A value in no block.
    pub fn plain(offset: i64) -> Value
        ensures { result ≡ plain offset }
    {
        Value {
            block: None,
            offset,
        }
    }

    /// The value, if it is in the range of expressions.
    pub fn limited(self) -> Option<Value>
        ensures value { result ≡ limited self }
        ensures range { IfSome result IsInRange }
    {
        limited(self)
    }
}

/// The value, if it is in range.
pub(crate) fn limited(value: Value) -> Option<Value>
    ensures value { result ≡ limited value }
    ensures range { IfSome result IsInRange }
{
    if is_in_range(value) {
        Some(value)
    } else {
        None
    }
}

fn is_in_range(value: Value) -> bool
    ensures { result ≡ is_in_range value }
{
    value.offset.unsigned_abs() <= greatest(value.block)
}

fn greatest(block: Option<Name>) -> u64
    ensures { result ≡ greatest block }
{
    match block {
        None => GREATEST_PLAIN,
        Some(_) => GREATEST_OFFSET,
    }
}

/// Two values multiplied or divided.
pub(crate) fn multiplied(operator: Operator, left: Value, right: Value) -> Option<Value>
    ensures value { result ≡ multiplied operator left right }
    ensures range { IfSome result IsInRange }
{
    let block = block_of_product(left.block, right.block);
    match operator {
        Operator::Times => in_block(block, left.offset.checked_mul(right.offset)),
        Operator::Over => in_block(block, quotient(left.offset, right.offset)),
    }
}

/// The sum of two values, or the difference.
pub(crate) fn added(is_minus: bool, left: Value, right: Value) -> Option<Value>
    ensures value { result ≡ added is_minus left right }
    ensures range { IfSome result IsInRange }
{
    if is_minus {
        difference_of(left, right)
    } else {
        sum_of(left, right)
    }
}

fn sum_of(left: Value, right: Value) -> Option<Value>
    ensures value { result ≡ sum_of left right }
    ensures range { IfSome result IsInRange }
{
    in_block(
        block_of_sum(left.block, right.block),
        left.offset.checked_add(right.offset),
    )
}

fn difference_of(left: Value, right: Value) -> Option<Value>
    ensures value { result ≡ difference_of left right }
    ensures range { IfSome result IsInRange }
{
    in_block(
        block_of_difference(left.block, right.block),
        left.offset.checked_sub(right.offset),
    )
}

/// A quotient truncated toward zero, 0 where the divisor is. None: it does not fit.
fn quotient(dividend: i64, divisor: i64) -> Option<i64>
    ensures { SomeIff result (FitsSigned w64 (quotient dividend divisor)) (quotient dividend divisor) }
{
    if divisor == 0 {
        return Some(0);
    }
    dividend.checked_div(divisor)
}

/// An offset in a block, where there is such a block and the value is in range; an offset that does not fit is not.
fn in_block(block: Option<Option<Name>>, offset: Option<i64>) -> Option<Value>
    ensures value { (whole : ℤ) → SomeIff offset (FitsSigned w64 whole) whole → result ≡ in_block block whole }
    ensures range { IfSome result IsInRange }
{
    let block = block?;
    let offset = offset?;
    limited(Value { block, offset })
}

fn block_of_sum(left: Option<Name>, right: Option<Name>) -> Option<Option<Name>>
    ensures { result ≡ block_of_sum left right }
{
    match (left, right) {
        (block, None) => Some(block),
        (None, Some(block)) => Some(Some(block)),
        (Some(_), Some(_)) => None,
    }
}

fn block_of_difference(left: Option<Name>, right: Option<Name>) -> Option<Option<Name>>
    ensures { result ≡ block_of_difference left right }
{
    match (left, right) {
        (block, None) => Some(block),
        (None, Some(_)) => None,
        (Some(left), Some(right)) => {
            if is_same_name(left, right) {
                Some(None)
            } else {
                None
            }
        }
    }
}

fn block_of_product(left: Option<Name>, right: Option<Name>) -> Option<Option<Name>>
    ensures { result ≡ block_of_product left right }
{
    match (left, right) {
        (None, None) => Some(None),
        _ => None,
    }
}

/// Whether two names are one.
pub fn is_same_name(left: Name, right: Name) -> bool
    ensures { result ≡ same_name left right }
{
    left == right
}

/// How many names stand before a name; None where it isn't among them.
#[inline(always)]
pub fn place_among(names: &[Name], name: Name) -> Option<usize>
    ensures place { result ≡ position (same_name name) names.now }
    ensures within { IfSome result (λ place. place < length names.now) }
{
    names.iter().position(|other| is_same_name(name, *other))
}
