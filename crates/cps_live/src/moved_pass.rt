//! Pass one of a move.
ghost use Rattle.std.specs.Prelude.{◌≡◌, ◌+◌, ◌<◌, ◌≤◌, IfOk, OnOk, length};
ghost use Rattle.cps_chunk.specs.Code.Chunk.{lengths_of};
ghost use Rattle.cps_edit.specs.Compares.{ComparesUpTo, Steps};
ghost use Rattle.cps_chunk.specs.Code.Walk.{IsStillWalk, IsWalk};
ghost use Rattle.cps_live.specs.Code.Exchanged.{HasPassedMoved, HasRuns};
ghost use Rattle.cps_live.specs.Code.FirstPass.{BeginsWalk};
ghost use Rattle.cps_live.specs.Code.MovedPass.{IsCrossed, IsMovedWalk, looks_of_runs, ones_of_runs, order_of};

use cps_chunk::{Destination, Span, Walk};
use cps_edit::Exchange;
use cps_state::Work;
use std::alloc::AllocError;

/// Goes over two runs of lines that change places, and over all lines behind both. Gives which runs of what is made anew are to change places, so that it stands
/// in the old order.
pub fn go_over_moved(
    walk: &mut Walk,
    exchange: Exchange,
    work: &mut Work,
) -> Result<Exchange, AllocError>
    requires walk { IsWalk walk.old }
    requires begins { BeginsWalk walk.old }
    requires runs { HasRuns (length walk.old.base.lines.now) exchange }
    ensures order { IfOk result (λ order. order ≡ order_of walk.old.base.lines.now exchange) }
    ensures moved { OnOk result (IsMovedWalk walk.old walk.new exchange) }
    ensures walk { IsStillWalk walk.old walk.new }
    ensures passed { HasPassedMoved result walk.old.base.lines.now exchange (lengths_of walk.old.chunks.items) work.old work.new }
{
    let order = cross(walk, exchange, work)?;
    let rest = Span {
        from: exchange.from,
        to: walk.end().line,
    };
    walk.go_along(Destination::Same, rest, work)?;
    Ok(order)
}

/// Goes over two runs of lines that change places: the shorter one is carried over the other.
fn cross(walk: &mut Walk, exchange: Exchange, work: &mut Work) -> Result<Exchange, AllocError>
    requires walk { IsWalk walk.old }
    requires begins { BeginsWalk walk.old }
    requires runs { HasRuns (length walk.old.base.lines.now) exchange }
    ensures order { IfOk result (λ order. order ≡ order_of walk.old.base.lines.now exchange) }
    ensures crossed { OnOk result (IsCrossed walk.old walk.new exchange) }
    ensures walk { IsStillWalk walk.old walk.new }
    ensures steps { Steps result work.old work.new (ones_of_runs walk.old.base.lines.now exchange) 0 }
    ensures looked { ComparesUpTo work.old work.new (looks_of_runs walk.old exchange) }
{
    if exchange.mid - exchange.keep <= exchange.from - exchange.mid {
        return carry_first(walk, exchange, work);
    }
    carry_second(walk, exchange, work)
}

/// The first run goes, the second is gone over, and the first comes behind it.
fn carry_first(walk: &mut Walk, exchange: Exchange, work: &mut Work) -> Result<Exchange, AllocError>
    requires walk { IsWalk walk.old }
    requires begins { BeginsWalk walk.old }
    requires runs { HasRuns (length walk.old.base.lines.now) exchange }
    ensures order { IfOk result (λ order. order ≡ order_of walk.old.base.lines.now exchange) }
    ensures crossed { OnOk result (IsCrossed walk.old walk.new exchange) }
    ensures walk { IsStillWalk walk.old walk.new }
    ensures steps { Steps result work.old work.new (ones_of_runs walk.old.base.lines.now exchange) 0 }
    ensures looked { ComparesUpTo work.old work.new (looks_of_runs walk.old exchange) }
{
    let Exchange { keep, mid, from } = exchange;
    let first = Span {
        from: keep,
        to: mid,
    };
    let second = Span {
        from: mid,
        to: from,
    };
    walk.close(keep, mid)?;
    walk.go_along(Destination::Same, second, work)?;
    let made = walk.made();
    walk.go_along(Destination::Behind(from), first, work)?;
    walk.close(from, from)?;
    Ok(Exchange {
        keep: 0,
        mid: made,
        from: walk.made(),
    })
}

/// The second run comes in front of the first, the first is gone over, and the second goes where it stood.
fn carry_second(
    walk: &mut Walk,
    exchange: Exchange,
    work: &mut Work,
) -> Result<Exchange, AllocError>
    requires walk { IsWalk walk.old }
    requires begins { BeginsWalk walk.old }
    requires runs { HasRuns (length walk.old.base.lines.now) exchange }
    ensures order { IfOk result (λ order. order ≡ order_of walk.old.base.lines.now exchange) }
    ensures crossed { OnOk result (IsCrossed walk.old walk.new exchange) }
    ensures walk { IsStillWalk walk.old walk.new }
    ensures steps { Steps result work.old work.new (ones_of_runs walk.old.base.lines.now exchange) 0 }
    ensures looked { ComparesUpTo work.old work.new (looks_of_runs walk.old exchange) }
{
    let Exchange { keep, mid, from } = exchange;
    let first = Span {
        from: keep,
        to: mid,
    };
    let second = Span {
        from: mid,
        to: from,
    };
    walk.go_along(Destination::Behind(keep), second, work)?;
    let made = walk.made();
    walk.close(keep, keep)?;
    walk.go_along(Destination::Same, first, work)?;
    walk.close(mid, from)?;
    Ok(Exchange {
        keep: 0,
        mid: made,
        from: walk.made(),
    })
}
