//! A server for editors, by the Language Server Protocol: the documents that are open, the marks in their lines, and what is answered of symbols and
//! rows.
//!
//! - `action.rt`: what may be mended in lines, as it is told
//! - `actions.rt`: what may be mended in lines
//! - `answering.rt`: what is told to a query
//! - `cards.rt`: the cards of lines of a text
//! - `changed_names.rt`: names that a change made stand for something, or for nothing
//! - `closing.rt`: what closes lines that are open
//! - `columns.rt`: where a symbol stands in a line
//! - `completions.rt`: what may be written next
//! - `diagnostic.rt`: a diagnostic, as it is written
//! - `diagnostics.rt`: the diagnostics of a text, and how an editor is told them
//! - `document.rt`: the document
//! - `document_laws.rt`: what holds of the source of a text
//! - `field.rt`: the field of a line in which a word stands
//! - `field_words.rt`: the words of a line that its fields make
//! - `first_marks.rt`: the marks of a text of which an editor is told first
//! - `folding.rt`: the lines that may be folded
//! - `folding_walk.rt`: what may be folded, found line by line
//! - `formatting.rt`: the edits that put fields into columns
//! - `headings.rt`: headings of a text
//! - `hint.rt`: what is shown beside a line
//! - `hints.rt`: what is shown beside lines, as it is told
//! - `hovering.rt`: what is shown at a position
//! - `idle.rt`: lines that nothing assembles
//! - `idle_lines.rt`: runs of lines that nothing assembles
//! - `introducing.rt`: what a server tells of itself
//! - `kept_notes.rt`: the notes of a source, kept line by line
//! - `lead.rt`: where else a mark leads
//! - `leads.rt`: the lines to which marks lead
//! - `line_mark.rt`: a mark of a line
//! - `line_marks.rt`: the marks of a line
//! - `line_pairs.rt`: lines that part or close others
//! - `line_state.rt`: what is done with the next line
//! - `line_tokens.rt`: the tokens of a line
//! - `line_word.rt`: a word of a line, by its columns
//! - `listing.rt`: the listing of lines
//! - `locations.rt`: where the name at a position stands
//! - `machine_above.rt`: the machine for which a line is assembled
//! - `macro_above.rt`: a macro as it stands above a line
//! - `macro_places.rt`: the lines that define macros
//! - `manual_rows.rt`: what is told of an operation at a position
//! - `mark.rt`: a mark
//! - `mark_kind.rt`: what a mark marks
//! - `marked_document.rt`: a document whose marks are kept
//! - `marking.rt`: the marks of a text
//! - `marks_laws.rt`: what holds of the marks of a text
//! - `mending.rt`: characters that no line has, and how they are mended
//! - `mentions.rt`: the symbol at a position, and the lines on which it stands
//! - `name_places.rt`: the name at a position
//! - `named_words.rt`: the words of lines that write names
//! - `names.rt`: names that lines define or read
//! - `nearest.rt`: names that are near to a word
//! - `note_form.rt`: in which form a note is told
//! - `noted_line.rt`: what a line has to do with notes
//! - `notice.rt`: the notifications that a server hears
//! - `offers.rt`: words that are offered
//! - `open_texts.rt`: the texts that are open
//! - `openers.rt`: lines that open, part and close others
//! - `operand_words.rt`: the words of operands
//! - `operations.rt`: the names of operations
//! - `outline_row.rt`: a row of an outline, with its line
//! - `outline_tree.rt`: an outline as a tree
//! - `outlined.rt`: a row of an outline, as it is told
//! - `owed.rt`: what is owed to a request
//! - `parting.rt`: words of a line, none over another
//! - `queried_text.rt`: a text that an editor asks about
//! - `query.rt`: what an editor may ask
//! - `ranges.rt`: positions and ranges, as they are told
//! - `readers.rt`: how many lines read symbols
//! - `rename_wish.rt`: what a request to rename asks
//! - `renaming.rt`: the edits that call a name otherwise
//! - `request_method.rt`: the requests that a server answers
//! - `rows.rt`: the rows of a line, and the row of a symbol
//! - `running.rt`: a run of a server
//! - `saying.rt`: what is said
//! - `server.rt`: the server, and what it answers
//! - `server_phase.rt`: the phases of a server
//! - `signature.rt`: what an operation takes, as it is told
//! - `signatures.rt`: what the operation of a line takes
//! - `symbols.rt`: the outline of a text
//! - `text_edit.rt`: edits of a text, as an editor makes them
//! - `token.rt`: a word of a line, as it is told
//! - `token_data.rt`: tokens as numbers, five for each
//! - `tokens.rt`: what the words of a text are, as they are told
//! - `told_notes.rt`: how an editor is told the notes of a text
//! - `touched_lines.rt`: which lines of a source a change touched
//! - `why.rt`: why a line is flagged
//! - `word_locations.rt`: the lines on which the symbol that a word writes stands
//! - `word_part.rt`: a part of a line, and the words in it that no name makes
//! - `words.rt`: the words of a line
//! - `writing.rt`: JSON, written with no blank in it
#![tactic(auto)]

mod action;
mod actions;
mod answering;
mod cards;
mod changed_names;
mod closing;
mod columns;
mod completions;
mod diagnostic;
mod diagnostics;
mod document;
mod document_laws;
mod field;
mod field_words;
mod first_marks;
mod folding;
mod folding_walk;
mod formatting;
mod headings;
mod hint;
mod hints;
mod hovering;
mod idle;
mod idle_lines;
mod introducing;
mod kept_notes;
mod lead;
mod leads;
mod line_mark;
mod line_marks;
mod line_pairs;
mod line_state;
mod line_tokens;
mod line_word;
mod listing;
mod locations;
mod machine_above;
mod macro_above;
mod macro_places;
mod manual_rows;
mod mark;
mod mark_kind;
mod marked_document;
mod marking;
mod marks_laws;
mod mending;
mod mentions;
mod name_places;
mod named_words;
mod names;
mod nearest;
mod note_form;
mod noted_line;
mod notice;
mod offers;
mod open_texts;
mod openers;
mod operand_words;
mod operations;
mod outline_row;
mod outline_tree;
mod outlined;
mod owed;
mod parting;
mod queried_text;
mod query;
mod ranges;
mod readers;
mod rename_wish;
mod renaming;
mod request_method;
mod rows;
mod running;
mod saying;
mod server;
mod server_phase;
mod signature;
mod signatures;
mod symbols;
mod text_edit;
mod token;
mod token_data;
mod tokens;
mod told_notes;
mod touched_lines;
mod why;
mod word_locations;
mod word_part;
mod words;
mod writing;

pub use answering::answer;
pub use document::Document;
pub use document_laws::{a_document_agrees_with_batch, a_text_stands_for_a_source};
pub use first_marks::FirstMarks;
pub use marked_document::MarkedDocument;
pub use marking::marks_of;
pub use marks_laws::marks_agree_with_batch;
pub use running::run_server;
pub use touched_lines::TouchedLines;
