//! What both passes of an edit compare, and those of a move.
ghost use Rattle.cps_chunk.specs.Code.Looks.{LooksLaw};
ghost use Rattle.cps_chunk.specs.Code.MoveLooks.{MoveLooksLaw};

/// Both passes together compare at most 128 lines for each chunk that an edit touches.
pub fn an_edit_compares_touched_chunks()
    ensures { LooksLaw }
{}

/// Both passes of a move together compare at most 128 lines for each chunk that it touches.
pub fn a_move_compares_touched_chunks()
    ensures { MoveLooksLaw }
{}
