//! What holds of the chunks into which a source is divided, after an edit.
ghost use Rattle.cps_chunk.specs.Division.{Insertions, Deletions, Joins};
ghost use Rattle.cps_chunk.specs.Exchange.{Exchanges, PartsAreNew};
ghost use Rattle.cps_chunk.specs.Put.{Puts};

/// Behind an insertion the lengths divide one line more, and all chunks stay but that of the line before it and the next one.
pub fn an_insertion_divides_again()
    ensures { Insertions }
{}

/// Behind a deletion the lengths divide so many lines fewer, and all chunks stay but those of the lines that go, the one before them and the next one.
pub fn a_deletion_divides_again()
    ensures { Deletions }
{}

/// Lines that are set before chunks change the first of them alone, and a chunk before them stays where the first of them only grew.
pub fn joining_changes_one_chunk()
    ensures { Joins }
{}

/// Where two runs of lines that stand side by side change places, the lengths divide as many lines again, and all chunks stay that lie wholly in a run or
/// around both, but those at its ends.
pub fn an_exchange_divides_again()
    ensures { Exchanges }
{}

/// Lines that begin with a part of an old chunk, and aren't its lines, are not those of an old chunk, if no run goes on across a seam.
pub fn a_part_begins_no_old_chunk()
    ensures { PartsAreNew }
{}

/// Where lines have come in the place of others, the lengths divide as many lines as there are then.
pub fn a_put_divides_again()
    ensures { Puts }
{}
