//! What the definitions of the division say of an edit: which chunks stay, and what a put is.
ghost use Rattle.cps_chunk.specs.ChunkLaws.{StaysByCounterparts, PutsStay, PutsAreEdits};
ghost use Rattle.cps_chunk.specs.TouchedLaws.{TouchedByCounterparts};

use crate::division_laws::{
    a_deletion_divides_again, a_put_divides_again, an_insertion_divides_again,
};

/// The chunks that are old ones by their lengths are those whose lines have all the lines of an old chunk as counterparts.
pub fn chunks_stay_by_counterparts()
    ensures { StaysByCounterparts }
{
    an_insertion_divides_again();
    a_put_divides_again();
}

/// The chunks that an edit touches by their lengths are those that it touches by the counterparts of their lines.
pub fn touched_chunks_are_by_counterparts()
    ensures { TouchedByCounterparts }
{
    chunks_stay_by_counterparts();
    a_put_divides_again();
}

/// All chunks stay at a put but those of the lines that go, the one before them and the next two.
pub fn a_put_changes_few_chunks()
    ensures { PutsStay }
{
    a_deletion_divides_again();
}

/// An insertion, a replacement and a deletion are puts, and one line more is one more insertion.
pub fn a_put_is_single_edits()
    ensures { PutsAreEdits }
{}
