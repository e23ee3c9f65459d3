//! What holds of lists of which two runs have changed places.
ghost use Rattle.cps_edit.specs.ExchangeLaws.{MovesTakeOut, TurnsBack, ExchangesPick};

/// A move takes lines out, and sets them in again.
pub fn a_move_takes_out<X>()
    ensures { MovesTakeOut X }
{}

/// An exchange is undone by another.
pub fn an_exchange_turns_back<X>()
    ensures { TurnsBack X }
{}

/// An exchanged list has the items of the numbers that they had before.
pub fn an_exchange_picks_numbers<X>()
    ensures { ExchangesPick X }
{}
