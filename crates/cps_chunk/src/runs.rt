//! What holds of runs of lines, by which chunks are passed.
ghost use Rattle.cps_final.specs.NamedFinals.{NamesLaw};
ghost use Rattle.cps_chunk.specs.RunLaws.{RunLaw, RunAsksNoMore};
ghost use Rattle.cps_chunk.specs.Named.{NamedLaw, NamedNoMore};

/// What lines did in one state stands in each that answers what their run asked as that one does: there they do the same, none is disturbed, and their puts
/// lead to the state after them.
pub fn a_run_stands_by_what_it_asks()
    ensures { RunLaw }
{}

/// A run asks no more than that: where none of its lines is disturbed, all that it asks has the same answers.
pub fn a_run_asks_no_more()
    ensures { RunAsksNoMore }
{}

/// Where all that the statements of a run name has the same final values, pass two makes the same of each of its lines, and does none again.
pub fn a_run_makes_what_it_names()
    ensures { NamedLaw }
{}

/// A run names no more than that: where none of its lines is done again, all that it names has the same final values.
pub fn a_run_names_no_more()
    ensures { NamedNoMore }
{}

/// A test passes for all that a run names, each once, exactly where it does for all that each of its statements names.
pub fn a_run_names_each_once()
    ensures { NamesLaw }
{}
