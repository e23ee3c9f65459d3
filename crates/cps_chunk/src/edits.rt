//! What the counts of the lines that an edit disturbs say of each line.
ghost use Rattle.cps_chunk.specs.EditLaws.{PlacesAreTheSource, PutsAreOneByOne, OnesAreCounted, TwosAreCounted};

/// The lines that are counted are those that the edit leaves.
pub fn counted_lines_are_the_source()
    ensures { PlacesAreTheSource }
{}

/// Lines in the place of others are the others deleted, and each line inserted behind the one before it.
pub fn a_put_is_edits_one_by_one()
    ensures { PutsAreOneByOne }
{}

/// How many lines an edit disturbs in pass one is how many are disturbed, each told by the state in front of it.
pub fn disturbed_lines_are_counted()
    ensures { OnesAreCounted }
{}

/// So it is in pass two, by the state in front of each line and the final values of both sources.
pub fn redone_lines_are_counted()
    ensures { TwosAreCounted }
{}
