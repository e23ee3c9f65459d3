//! The texts of a source, made in one walk over its lines.
ghost use Rattle.std.specs.Prelude.{◌≡◌, true, [], ◌++◌, ◌+◌, ◌<◌, ◌≤◌, ◌^◌, map, IfOk, OnOk};
ghost use Rattle.cps_code.specs.Image.{piece_of};
ghost use Rattle.cps_final.specs.Outcome.{flags_of};
ghost use Rattle.cps_list.specs.Flagged.{flag_row, end_row, count_row};
ghost use Rattle.cps_list.specs.ListingText.{line_rows, open_row};
ghost use Rattle.cps_list.specs.Code.Making.{Adds, AddsLine, AddsRows, Finishes, FinishesWords, IsPrintoutOf, binary_of, shown, shows_binary};
ghost use Rattle.cps_list.specs.Symbols.{symbol_rows};

use crate::binary::{push_binary, put_pieces, put_pool};
use crate::flagged::{count_of, push_end, push_row, with_end};
use crate::listing::{push_open_row, push_rows};
use crate::mention::Mention;
use crate::part::Part;
use crate::symbols::push_symbols;
use cps_code::{Piece, Words};
use cps_final::{Finals, Gathered, Row, flags_of};
use cps_state::Flags;
use std::alloc::{AllocError, Global};
use std::marker::Model;

/// What a part shows of the lines so far.
#[derive(Drop)]
pub struct Printout {
    part: Part,
    listing: Vec<u8>,
    words: Words,
    flags: Vec<u8>,
    flagged: u64,
}

impl Model for Printout {
    ghost use Rattle.cps_list.specs.Code.Making.{Printout};

    ghost Value = { Printout };

    ghost view = { λ printout. record { part = printout.part; listing = printout.listing.items; words = printout.words; flags = printout.flags.items; flagged = printout.flagged } };
}

impl Printout {
    /// Of no line. Takes no memory yet.
    pub fn new(alloc: Global, part: Part) -> Printout
        ensures none { IsPrintoutOf [] [] result }
        ensures part { result.part ≡ part }
        ensures few { result.flagged ≡ 0 }
    {
        Printout {
            part,
            listing: Vec::new(alloc),
            words: Words::new(alloc),
            flags: Vec::new(alloc),
            flagged: 0,
        }
    }

    /// Adds the next line, with its number, its rows and its bits.
    pub fn add(
        &mut self,
        number: u32,
        line: &[u8],
        rows: &[Row],
        pieces: &[Piece],
    ) -> Result<(), AllocError>
        requires { self.old.flagged < number }
        ensures printout { OnOk result (AddsLine number line.now rows.now (map piece_of pieces.now) self.old self.new) }
        ensures part { OnOk result (self.new.part ≡ self.old.part) }
        ensures few { OnOk result (self.new.flagged ≤ number) }
    {
        let part = self.part;
        let flags = flags_in(rows);
        add_listing(&mut self.listing, part.shows_listing(), number, line, rows)?;
        add_words(&mut self.words, part.shows_binary(), pieces)?;
        add_flags(&mut self.flags, part.shows_flags(), number, flags)?;
        self.flagged += count_of(flags);
        Ok(())
    }

    /// The text of the part, and how many lines have a flag, with one more where a range is open at the end.
    pub fn finish(
        self,
        finals: &Finals,
        is_open: bool,
        mentions: Vec<Mention>,
    ) -> Result<(Vec<u8>, u64), AllocError>
        requires { self.flagged < 2 ^ 32 }
        ensures text { IfOk result (λ made. Finishes self (⟦<Finals as Gathered>⟧.gathered finals.now) is_open mentions.items made.0.items made.1) }
        ensures few { IfOk result (λ made. made.1 ≤ self.flagged + 1) }
    {
        let Printout {
            part,
            listing,
            words,
            flags,
            flagged,
        } = self;
        let count = with_end(flagged, is_open);
        let mut text = listing;
        end_listing(&mut text, part.shows_listing(), is_open)?;
        show_words(&mut text, part.shows_binary(), words, finals)?;
        show_symbols(&mut text, part.shows_symbols(), mentions, finals)?;
        show_flags(&mut text, part.shows_flags(), &flags, is_open, count)?;
        Ok((text, count))
    }

    /// The words of the binary text, without a text, and how many lines have a flag, with one more where a range is open at the end.
    pub fn into_words(self, finals: &Finals, is_open: bool) -> Result<(Words, u64), AllocError>
        requires shown { shows_binary self.part ≡ true }
        requires few { self.flagged < 2 ^ 32 }
        ensures words { IfOk result (λ made. FinishesWords self (⟦<Finals as Gathered>⟧.gathered finals.now) is_open made.0 made.1) }
        ensures few { IfOk result (λ made. made.1 ≤ self.flagged + 1) }
    {
        let Printout {
            part: _,
            listing,
            words,
            flags,
            flagged,
        } = self;
        drop(listing);
        drop(flags);
        let mut words = words;
        put_pool(&mut words, finals)?;
        Ok((words, with_end(flagged, is_open)))
    }
}

/// The flags of all rows of a line. Most lines have one row, and these are its flags.
fn flags_in(rows: &[Row]) -> Flags
    ensures { result ≡ flags_of rows.now }
{
    match rows {
        [row] => row.flags,
        _ => flags_of(rows),
    }
}

fn add_listing(
    listing: &mut Vec<u8>,
    is_shown: bool,
    number: u32,
    line: &[u8],
    rows: &[Row],
) -> Result<(), AllocError>
    ensures { OnOk result (listing.new.items ≡ listing.old.items ++ shown is_shown (line_rows number line.now rows.now)) }
{
    if is_shown {
        push_rows(listing, number, line, rows)?;
    }
    Ok(())
}

fn add_words(words: &mut Words, is_shown: bool, pieces: &[Piece]) -> Result<(), AllocError>
    ensures { OnOk result (Adds (shown is_shown (map piece_of pieces.now)) words.old words.new) }
{
    if is_shown {
        put_pieces(words, pieces)?;
    }
    Ok(())
}

fn add_flags(
    text: &mut Vec<u8>,
    is_shown: bool,
    number: u32,
    flags: Flags,
) -> Result<(), AllocError>
    ensures { OnOk result (text.new.items ≡ text.old.items ++ shown is_shown (flag_row number flags)) }
{
    if is_shown {
        push_row(text, number, flags)?;
    }
    Ok(())
}

fn end_listing(text: &mut Vec<u8>, is_shown: bool, is_open: bool) -> Result<(), AllocError>
    ensures { OnOk result (text.new.items ≡ text.old.items ++ shown is_shown (open_row is_open)) }
{
    if is_shown {
        push_open_row(text, is_open)?;
    }
    Ok(())
}

fn show_words(
    text: &mut Vec<u8>,
    is_shown: bool,
    words: Words,
    finals: &Finals,
) -> Result<(), AllocError>
    ensures { AddsRows result text.old.items text.new.items words
        (λ bits. shown is_shown (binary_of (⟦<Finals as Gathered>⟧.gathered finals.now) bits)) }
{
    if is_shown {
        push_binary(text, words, finals)?;
    }
    Ok(())
}

fn show_symbols(
    text: &mut Vec<u8>,
    is_shown: bool,
    mentions: Vec<Mention>,
    finals: &Finals,
) -> Result<(), AllocError>
    ensures { OnOk result (text.new.items ≡ text.old.items ++ shown is_shown (symbol_rows (⟦<Finals as Gathered>⟧.gathered finals.now) mentions.items)) }
{
    if is_shown {
        push_symbols(text, mentions, finals)?;
    }
    Ok(())
}

/// The rows of flagged lines, and what stands after them.
fn show_flags(
    text: &mut Vec<u8>,
    is_shown: bool,
    rows: &[u8],
    is_open: bool,
    count: u64,
) -> Result<(), AllocError>
    ensures { OnOk result (text.new.items ≡ text.old.items ++ shown is_shown (rows.now ++ end_row is_open ++ count_row count)) }
{
    if is_shown {
        text.extend_from_slice(rows)?;
        push_end(text, is_open, count)?;
    }
    Ok(())
}
