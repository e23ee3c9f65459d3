//! The literal words of statements.
ghost use Rattle.std.specs.Prelude.{◌≡◌, ◌++◌, flat_map, OnOk, IfOk};
ghost use Rattle.cps_code.specs.Operand.{operand_literals};
ghost use Rattle.cps_state.specs.Made.{content_literals};
ghost use Rattle.cps_final.specs.Pool.{literals_among};

use cps_code::Operand;
use cps_state::{Content, Item};
use std::alloc::{AllocError, Global};

/// The literal words of statements, in their order. Takes no memory where there is none.
pub fn list_literals(alloc: Global, items: &[Item]) -> Result<Vec<u64>, AllocError>
    ensures { IfOk result (λ literals. literals.items ≡ literals_among items.now) }
{
    let mut literals = Vec::new(alloc);
    for item in items {
        push_contents_literals(&mut literals, item.made.contents())?;
    }
    Ok(literals)
}

fn push_contents_literals(literals: &mut Vec<u64>, contents: &[Content]) -> Result<(), AllocError>
    ensures { OnOk result (literals.new.items ≡ literals.old.items ++ flat_map content_literals contents.now) }
{
    for content in contents {
        for hole in content.holes() {
            push_literal(literals, &hole.operand)?;
        }
    }
    Ok(())
}

fn push_literal(literals: &mut Vec<u64>, operand: &Operand) -> Result<(), AllocError>
    ensures { OnOk result (literals.new.items ≡ literals.old.items ++ operand_literals operand.now) }
{
    if let Operand::Literal(word) = operand {
        literals.push(*word)?;
    }
    Ok(())
}
