//! CON, DATA and DIS: words from the beginning of a word on.
ghost use Rattle.std.specs.Prelude.{◌≡◌, ◌<◌, ◌^◌, ◌*◌, ◌/◌, ◌+◌, ◌-◌, take, drop, All, IfOk, OnOk};
ghost use Rattle.cps_expr.specs.Item.{bits_of, characters_in_word, packed_characters};
ghost use Rattle.cps_state.specs.Code.Line.{Does};
ghost use Rattle.cps_state.specs.Made.{width_of, IsContent};
ghost use Rattle.cps_pass.specs.Code.Sites.{IsSite};
ghost use Rattle.cps_pass.specs.Words as meaning;

use crate::context::Context;
use crate::numbers::{between, no_number_flags, plain_number};
use crate::places::here_at;
use crate::placing::{Site, ask_site, place, place_nothing, place_unread, word_start};
use crate::value_now::value_now;
use cps_expr::{DisText, Expr, Machine, Sequence, pack_characters};
use cps_state::{Content, Contents, Lookup, Recorder, field_hole, word_bits};
use cps_text::limits::MOST_COUNTED_WORDS;
use std::alloc::{AllocError, Global};

/// The display code of a blank.
const BLANK: u8 = 0o55;

/// A statement of words with unreadable operands.
pub fn unread_words<L: Lookup>(
    recorder: &mut Recorder<'_, L>,
    context: Context,
) -> Result<(), AllocError>
    ensures { OnOk result (Does (meaning.unread_words context.control context.location) L.answer recorder.old recorder.new) }
{
    let site = ask_site(recorder, context)?;
    place_unread(recorder, site, word_start(site))
}

fn place_words<L: Lookup>(
    recorder: &mut Recorder<'_, L>,
    site: Site,
    contents: Vec<Content>,
) -> Result<(), AllocError>
    requires site { IsSite site }
    requires each { All IsContent contents.items }
    requires some { All (λ content. 0 < width_of content) contents.items }
    ensures { OnOk result (Does (meaning.words contents.items site) L.answer recorder.old recorder.new) }
{
    place(
        recorder,
        site,
        word_start(site),
        Contents::several(contents),
        false,
    )
}

/// CON: a word for each value.
pub fn con<L: Lookup>(
    recorder: &mut Recorder<'_, L>,
    context: Context,
    values: Sequence<Expr>,
) -> Result<(), AllocError>
    ensures { OnOk result (Does (meaning.con context.control context.location values) L.answer recorder.old recorder.new) }
{
    let alloc = recorder.alloc();
    let site = ask_site(recorder, context)?;
    let contents = value_words(alloc, context.control.machine, values)?;
    place_words(recorder, site, contents)
}

fn value_words(
    alloc: Global,
    machine: Machine,
    values: Sequence<Expr>,
) -> Result<Vec<Content>, AllocError>
    ensures contents { IfOk result (λ contents. contents.items ≡ meaning.value_words machine values) }
    ensures each { IfOk result (λ contents. All IsContent contents.items) }
    ensures some { IfOk result (λ contents. All (λ content. 0 < width_of content) contents.items) }
{
    let values = values.into_vec();
    let mut contents = Vec::with_capacity(alloc, values.len())?;
    for value in values {
        let hole = field_hole(word_bits(machine), value);
        contents.push(Content::Value(hole))?;
    }
    Ok(contents)
}

/// DATA: a word for each item.
pub fn data_words<L: Lookup>(
    recorder: &mut Recorder<'_, L>,
    context: Context,
    numbers: &Sequence<u64>,
) -> Result<(), AllocError>
    requires { All (λ number. number < 2 ^ bits_of context.control.machine) numbers.now }
    ensures { OnOk result (Does (meaning.data_words context.control context.location numbers.now) L.answer recorder.old recorder.new) }
{
    let alloc = recorder.alloc();
    let site = ask_site(recorder, context)?;
    let contents = number_words(alloc, context.control.machine, numbers)?;
    place_words(recorder, site, contents)
}

fn number_words(
    alloc: Global,
    machine: Machine,
    numbers: &Sequence<u64>,
) -> Result<Vec<Content>, AllocError>
    requires { All (λ number. number < 2 ^ bits_of machine) numbers.now }
    ensures contents { IfOk result (λ contents. contents.items ≡ meaning.number_words machine numbers.now) }
    ensures each { IfOk result (λ contents. All IsContent contents.items) }
    ensures some { IfOk result (λ contents. All (λ content. 0 < width_of content) contents.items) }
{
    let numbers = numbers.as_slice();
    let mut contents = Vec::with_capacity(alloc, numbers.len())?;
    for number in numbers {
        contents.push(Content::Number(word_bits(machine), *number))?;
    }
    Ok(contents)
}

/// DIS: characters.
pub fn dis<L: Lookup>(
    recorder: &mut Recorder<'_, L>,
    context: Context,
    text: &DisText,
) -> Result<(), AllocError>
    ensures { OnOk result (Does (meaning.dis context.control context.location text.now) L.answer recorder.old recorder.new) }
{
    let alloc = recorder.alloc();
    let site = ask_site(recorder, context)?;
    match text {
        DisText::Counted(count, text) => { display_counted(recorder, site, count, text) }
        DisText::Delimited(text) => {
            let contents = delimited_words(alloc, site.machine, text)?;
            place_words(recorder, site, contents)
        }
    }
}

fn display_counted<L: Lookup>(
    recorder: &mut Recorder<'_, L>,
    site: Site,
    count: &Expr,
    text: &Sequence<u8>,
) -> Result<(), AllocError>
    requires { IsSite site }
    ensures { OnOk result (Does (meaning.displaying (DisText.Counted count.now text.now) site) L.answer recorder.old recorder.new) }
{
    let alloc = recorder.alloc();
    let begun = word_start(site);
    let here = here_at(site.block, begun.start);
    let value = value_now(recorder, count, here)?;
    let Some(count) = between(1, MOST_COUNTED_WORDS, plain_number(value)) else {
        let flags = no_number_flags(site, value);
        return place_nothing(recorder, site, begun, flags, Contents::none(alloc));
    };
    let contents = text_words(
        alloc,
        site.machine,
        BLANK,
        usize::from(count),
        text.as_slice(),
    )?;
    place_words(recorder, site, contents)
}

/// The characters of a word.
fn characters_in_word(machine: Machine) -> usize
    ensures { result ≡ characters_in_word machine }
{
    match machine {
        Machine::Cp => 10,
        Machine::Pp => 2,
    }
}

/// Words of characters with at least 12 zero bits behind them.
fn delimited_words(
    alloc: Global,
    machine: Machine,
    text: &Sequence<u8>,
) -> Result<Vec<Content>, AllocError>
    ensures contents { IfOk result (λ contents. contents.items ≡ meaning.number_words machine (meaning.delimited_words machine text.now)) }
    ensures each { IfOk result (λ contents. All IsContent contents.items) }
    ensures some { IfOk result (λ contents. All (λ content. 0 < width_of content) contents.items) }
{
    let text = text.as_slice();
    text_words(
        alloc,
        machine,
        0,
        delimited_count(machine, text.len()),
        text,
    )
}

/// How many words so many characters take with at least 12 zero bits behind them.
fn delimited_count(machine: Machine, characters: usize) -> usize
    requires { characters < 2 ^ 63 }
    ensures { result ≡ (characters + 2 + (characters_in_word machine - 1)) / characters_in_word machine }
{
    (characters + 2).div_ceil(characters_in_word(machine))
}

/// So many words of characters, with a code for those that are missing.
fn text_words(
    alloc: Global,
    machine: Machine,
    fill: u8,
    count: usize,
    text: &[u8],
) -> Result<Vec<Content>, AllocError>
    requires { fill < 64 }
    ensures contents { IfOk result (λ contents. contents.items ≡ meaning.number_words machine (meaning.text_words machine fill count text.now)) }
    ensures each { IfOk result (λ contents. All IsContent contents.items) }
    ensures some { IfOk result (λ contents. All (λ content. 0 < width_of content) contents.items) }
{
    let mut contents = Vec::new(alloc);
    for word in 0..count {
        let number = text_word(machine, fill, word, text);
        contents.push(Content::Number(word_bits(machine), number))?;
    }
    Ok(contents)
}

/// The characters of one of the words.
fn text_word(machine: Machine, fill: u8, word: usize, text: &[u8]) -> u64
    requires { fill < 64 }
    ensures word { result ≡ packed_characters (characters_in_word machine) fill (take (characters_in_word machine) (drop (characters_in_word machine * word) text.now)) }
    ensures fits { result < 2 ^ bits_of machine }
{
    let most = characters_in_word(machine);
    let first = word.saturating_mul(most).min(text.len());
    let end = first.saturating_add(most).min(text.len());
    pack_characters(&text[first..end], most, fill)
}
