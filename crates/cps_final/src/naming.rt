//! What statements name for pass two, and a test of each such name.
ghost use Rattle.std.specs.Prelude.{◌≡◌};
ghost use Rattle.std.specs.List.{list_all, list_any};
ghost use Rattle.cps_expr.specs.Value.{same_name};
ghost use Rattle.cps_final.specs.Finals.{block as block_named};
ghost use Rattle.cps_final.specs.Outcome.{blocks_named, blocks_shown, blocks_stood};
ghost use Rattle.cps_final.specs.Naming.{all_named};
ghost use Rattle.cps_final.specs.Code.NamesPassing.{name_passes, operand_passes, hole_passes, contents_pass};

use cps_code::{Hole, Operand};
use cps_expr::is_same_name;
use cps_state::{Item, Made, SetValue, Shown, Stand};
use cps_text::Name;

/// A test of what can be named.
pub trait Naming {
    ghost use Rattle.std.specs.Prelude.{◌≡◌, Bool};
    ghost use Rattle.cps_final.specs.Finals.{Named, label, block, literal};

    ghost passes: { Self → Named → Bool };

    /// Whether a label passes.
    fn label(&self, name: Name) -> bool
        ensures { result ≡ passes self.now (label name) };

    /// Whether a block passes.
    fn block(&self, name: Option<Name>) -> bool
        ensures { result ≡ passes self.now (block name) };

    /// Whether a literal passes.
    fn literal(&self, word: u64) -> bool
        ensures { result ≡ passes self.now (literal word) };
}

/// Whether all that statements name passes.
pub fn all_pass<N: Naming>(items: &[Item], naming: &N) -> bool
    ensures { result ≡ list_all (all_named (N.passes naming.now)) items.now }
{
    items.iter().all(|item| item_passes(item, naming))
}

fn item_passes<N: Naming>(item: &Item, naming: &N) -> bool
    ensures { result ≡ all_named (N.passes naming.now) item.now }
{
    if !contents_pass(&item.made, naming) {
        return false;
    }
    blocks_pass(item, naming)
}

// ---- contents

/// Whether what contents name passes, but for the symbols that SET had given a value.
fn contents_pass<N: Naming>(made: &Made, naming: &N) -> bool
    ensures { result ≡ contents_pass (N.passes naming.now) made.now.held made.now.contents }
{
    let held = made.held();
    made.contents()
        .iter()
        .all(|content| holes_pass(held, content.holes(), naming))
}

fn holes_pass<N: Naming>(held: &[SetValue], holes: &[Hole], naming: &N) -> bool
    ensures { result ≡ list_all (hole_passes (N.passes naming.now) held.now) holes.now }
{
    holes
        .iter()
        .all(|hole| operand_passes(held, &hole.operand, naming))
}

fn operand_passes<N: Naming>(held: &[SetValue], operand: &Operand, naming: &N) -> bool
    ensures { result ≡ operand_passes (N.passes naming.now) held.now operand.now }
{
    match operand {
        Operand::Expression(expression) => names_pass(held, expression.names(), naming),
        Operand::Literal(word) => naming.literal(*word),
    }
}

fn names_pass<N: Naming>(held: &[SetValue], names: &[Name], naming: &N) -> bool
    ensures { result ≡ list_all (name_passes (N.passes naming.now) held.now) names.now }
{
    names
        .iter()
        .all(|name| is_held(held, *name) || naming.label(*name))
}

fn is_held(held: &[SetValue], name: Name) -> bool
    ensures { result ≡ list_any (λ set. same_name set.name name) held.now }
{
    held.iter().any(|set| is_same_name(set.name, name))
}

// ---- blocks

fn blocks_pass<N: Naming>(item: &Item, naming: &N) -> bool
    ensures { result ≡ list_all (λ name. N.passes naming.now (block_named name)) (blocks_named item.now) }
{
    stand_passes(item.stand, naming)
        && shown_passes(item.made.shown(), naming)
        && held_pass(item.made.held(), naming)
}

fn stand_passes<N: Naming>(stand: Stand, naming: &N) -> bool
    ensures { result ≡ list_all (λ name. N.passes naming.now (block_named name)) (blocks_stood stand) }
{
    match stand {
        Stand::Nowhere => true,
        Stand::In(block) => naming.block(block),
    }
}

fn shown_passes<N: Naming>(shown: Shown, naming: &N) -> bool
    ensures { result ≡ list_all (λ name. N.passes naming.now (block_named name)) (blocks_shown shown) }
{
    match shown {
        Shown::Value(value) => naming.block(value.block),
        Shown::Address(value) => naming.block(value.block),
        Shown::Nothing | Shown::Start => true,
    }
}

fn held_pass<N: Naming>(held: &[SetValue], naming: &N) -> bool
    ensures { result ≡ list_all (λ set. N.passes naming.now (block_named set.value.block)) held.now }
{
    held.iter().all(|set| naming.block(set.value.block))
}
