//! Tests of a server for editors, by rows of conversations: what it says is that of the Language Server Protocol and of the definitions.
//!
//! - `action_rows.rt`: what may be mended in lines
//! - `asking.rt`: questions about an open text
//! - `completion_rows.rt`: words that may be typed
//! - `conversation.rt`: conversations with a server
//! - `decks.rt`: decks that an editor opens
//! - `device_rows.rt`: where bytes come in pieces, and where a read or a write fails
//! - `folding_rows.rt`: the lines that may be folded
//! - `format_rows.rt`: fields that go into columns
//! - `hint_rows.rt`: what is shown behind lines
//! - `hover_rows.rt`: what is shown of a place
//! - `listing_rows.rt`: the listing of lines
//! - `many_rows.rt`: texts with many marks
//! - `outline_rows.rt`: the symbols of a text
//! - `phase_rows.rt`: how conversations begin and end
//! - `place_rows.rt`: where symbols are defined and read
//! - `refused_rows.rt`: requests that are refused, and of which text one asks
//! - `rename_rows.rt`: names that are called otherwise
//! - `signature_rows.rt`: what operations take
//! - `text_rows.rt`: what is told of open texts
//! - `token_rows.rt`: what the words of texts are

mod action_rows;
mod asking;
mod completion_rows;
mod conversation;
mod decks;
mod device_rows;
mod folding_rows;
mod format_rows;
mod hint_rows;
mod hover_rows;
mod listing_rows;
mod many_rows;
mod outline_rows;
mod phase_rows;
mod place_rows;
mod refused_rows;
mod rename_rows;
mod signature_rows;
mod text_rows;
mod token_rows;
