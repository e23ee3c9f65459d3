//! The page.
ghost use Rattle.std.specs.Prelude.{◌≡◌, IfOk, OnOk};
ghost use Rattle.cps_list.specs.Binary.{binary_text};
ghost use Rattle.cps_page.specs.Code.Making.{AddsSections, AreTargets};
ghost use Rattle.cps_page.specs.Page.{IsPage, IsPageOf, title_text};

use crate::beside::{Beside, Block};
use crate::code_rows::CodeRows;
use crate::entries::list_entries;
use crate::frame::{BACK, FRONT, MIDDLE};
use crate::makers::list_makers;
use crate::named_blocks::list_names;
use crate::sections::{
    Words, push_flag_section, push_instruction_section, push_listing_section, push_memory_section,
    push_symbol_section, push_word_section,
};
use crate::words::list_words;
use cps_list::{Part, View, make_text};
use cps_markup::{Targets, push_text};
use cps_text::Name;
use std::alloc::{AllocError, Global};

/// What stands around the title and the sections of a page.
#[derive(Clone, Copy)]
pub struct Frame<'a> {
    /// In front of the title.
    pub front: &'a [u8],
    /// Between the title and the sections.
    pub middle: &'a [u8],
    pub back: &'a [u8],
}

/// An assembled source as a page: in a frame its name, and its listing, its words, its symbols and its flags, marked up, with what is told beside them.
/// The frame makes it a document of HTML; `FRONT`, `MIDDLE` and `BACK` do. No date and no name of a file stands
/// there, so the same lines give the same page. Fails only without memory.
pub fn make_page<V: View>(
    alloc: Global,
    view: &V,
    beside: &Beside,
    frame: &Frame<'_>,
) -> Result<Vec<u8>, AllocError>
    ensures { IfOk result (λ page. IsPage frame.now.front.now frame.now.middle.now frame.now.back.now (V.assembly view.now) page.items) }
{
    let text = make_text(alloc, view, Part::Binary)?;
    let rows = CodeRows::of(alloc, view)?;
    let words = Words {
        text: &text,
        rows: &rows,
    };
    let targets = list_targets(alloc, view, &words, &beside.blocks)?;
    let making = Making {
        targets: &targets,
        beside,
        words,
    };
    let mut page = Vec::new(alloc);
    page.extend_from_slice(frame.front)?;
    push_text(&mut page, title_of(&view.finals().program()))?;
    page.extend_from_slice(frame.middle)?;
    push_sections(alloc, &mut page, view, &making)?;
    page.extend_from_slice(frame.back)?;
    Ok(page)
}

/// An assembled source as a page, in the frame that all pages have.
#[tactic(auto, unfolding(crate::specs::Page::front, crate::specs::Page::middle, crate::specs::Page::back))]
pub fn make_page_of<V: View>(
    alloc: Global,
    view: &V,
    beside: &Beside,
) -> Result<Vec<u8>, AllocError>
    ensures { IfOk result (λ page. IsPageOf (V.assembly view.now) page.items) }
{
    let frame = Frame {
        front: FRONT,
        middle: MIDDLE,
        back: BACK,
    };
    make_page(alloc, view, beside, &frame)
}

fn title_of(program: &Option<Name>) -> &[u8]
    ensures { result.now ≡ title_text program.now }
{
    match program {
        Some(name) => name.text(),
        None => b"COMPASS listing",
    }
}

/// The lines, symbols, words and blocks to which links can lead.
fn list_targets<V: View>(
    alloc: Global,
    view: &V,
    words: &Words<'_>,
    blocks: &[Block],
) -> Result<Targets, AllocError>
    ensures { IfOk result (AreTargets (V.assembly view.now)) }
{
    let entries = list_entries(alloc, view)?;
    let words = list_words(alloc, words.rows, words.text)?;
    let blocks = list_names(alloc, blocks)?;
    let makers = list_makers(alloc, view)?;
    Ok(Targets {
        count: view.count(),
        entries,
        words,
        blocks,
        makers,
    })
}

/// What the sections are made from, beside the source.
#[derive(Clone, Copy)]
struct Making<'a> {
    targets: &'a Targets,
    beside: &'a Beside,
    words: Words<'a>,
}

/// The sections.
fn push_sections<V: View>(
    alloc: Global,
    page: &mut Vec<u8>,
    view: &V,
    making: &Making<'_>,
) -> Result<(), AllocError>
    requires { making.now.words.text.now ≡ binary_text (V.assembly view.now) }
    ensures { OnOk result (AddsSections making.now.targets.now (V.assembly view.now) page.old.items page.new.items) }
{
    let Making {
        targets,
        beside,
        words,
    } = *making;
    push_memory_section(alloc, page, view, targets, beside)?;
    push_listing_section(alloc, page, view, targets, beside)?;
    push_word_section(alloc, page, view, targets, &words)?;
    let symbols = make_text(alloc, view, Part::Symbols)?;
    push_symbol_section(page, targets, &symbols)?;
    let flags = make_text(alloc, view, Part::Flags)?;
    push_flag_section(alloc, page, targets, beside, &flags)?;
    push_instruction_section(alloc, page, targets, beside)?;
    Ok(())
}
