//! A source for the words of an octal text: it is drafted, and each draft is assembled and compared before it is answered.
//!
//! - `certificate.rt`: whether a text makes the words that are wanted
//! - `disassembly.rt`: the disassembly as a whole
//! - `disassembly_fault.rt`: why no source is made
//! - `guess.rt`: for which machine an octal text seems to be
//! - `ladder.rt`: drafts, from the boldest to the plainest
//! - `request.rt`: what the words of a disassembly ask
//! - `run_fault.rt`: why a run ends without its source
//! - `running.rt`: the run: a text is read, and the source is written
//! - `selection.rt`: which words of an octal text are taken
//! - `span.rt`: addresses outside of which nothing stands
//! - `wanted.rt`: the words that are wanted
#![tactic(auto)]

ghost use Rattle.cps_disassembly.specs.Makes.{AWholeWordStandsExactly, WhereNoWordIsWantedNoneStands};

mod certificate;
mod disassembly;
mod disassembly_fault;
mod guess;
mod ladder;
mod request;
mod run_fault;
mod running;
mod selection;
mod span;
mod wanted;

pub use certificate::{Certificate, Failures, certify};
pub use disassembly::disassemble;
pub use disassembly_fault::DisassemblyFault;
pub use ladder::{Attempt, try_draft};
pub use request::Request;
pub use run_fault::RunFault;
pub use running::{DisassemblySetup, disassemble_input};
pub use selection::Selection;
pub use wanted::Wanted;

/// Where a text makes the words of an octal text, a word that is claimed whole stands exactly so.
pub fn a_whole_word_stands_exactly()
    ensures { AWholeWordStandsExactly }
{}

/// And where no word is wanted none stands.
pub fn where_no_word_is_wanted_none_stands()
    ensures { WhereNoWordIsWantedNoneStands }
{}
