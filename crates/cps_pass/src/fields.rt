//! VFD: fields of any width.
ghost use Rattle.std.specs.Prelude.{◌≡◌, ◌<◌, ◌≤◌, All, IfOk, IfSome, OnOk};
ghost use Rattle.cps_state.specs.Code.Line.{Does, Hands};
ghost use Rattle.cps_state.specs.Made.{IsContent};
ghost use Rattle.cps_pass.specs.Fields as meaning;
ghost use Rattle.cps_pass.specs.Code.Sites.{IsSite};

use crate::context::Context;
use crate::numbers::{between, plain_number};
use crate::places::here_at;
use crate::placing::{
    Site, ask_site, place, place_nothing, place_unread, placing_flags, start_for,
};
use crate::value_now::{ValueNow, value_now};
use cps_expr::{Expr, Field, Sequence, Value};
use cps_state::{Content, Contents, Flags, Lookup, Recorder, field_hole};
use std::alloc::AllocError;

/// The greatest width of a field.
const MOST_BITS: u8 = 60;

/// VFD: fields, from any bit on.
pub fn vfd<L: Lookup>(
    recorder: &mut Recorder<'_, L>,
    context: Context,
    fields: Sequence<Field>,
) -> Result<(), AllocError>
    ensures { OnOk result (Does (meaning.vfd context.control context.location fields) L.answer recorder.old recorder.new) }
{
    let site = ask_site(recorder, context)?;
    let here = here_at(site.block, start_for(site, 0).start);
    let sized = size_fields(recorder, fields, here)?;
    place_sized(recorder, site, sized)
}

/// VFD with unreadable operands.
pub fn unread_vfd<L: Lookup>(
    recorder: &mut Recorder<'_, L>,
    context: Context,
) -> Result<(), AllocError>
    ensures { OnOk result (Does (meaning.unread_vfd context.control context.location) L.answer recorder.old recorder.new) }
{
    let site = ask_site(recorder, context)?;
    place_unread(recorder, site, start_for(site, 0))
}

/// Fields as contents, and the flags of their widths.
#[derive(Drop)]
struct Sized {
    contents: Vec<Content>,
    flags: Flags,
}

fn size_fields<L: Lookup>(
    recorder: &mut Recorder<'_, L>,
    fields: Sequence<Field>,
    here: Value,
) -> Result<Sized, AllocError>
    ensures sized { IfOk result (λ sized. Hands (meaning.sizing fields here) (record { contents = sized.contents.items; flags = sized.flags }) L.answer recorder.old recorder.new) }
    ensures each { IfOk result (λ sized. All IsContent sized.contents.items) }
{
    let alloc = recorder.alloc();
    let fields = fields.into_vec();
    let mut contents = Vec::with_capacity(alloc, fields.len())?;
    let mut flags = Flags::none();
    for field in fields {
        let width = value_now(recorder, &field.width, here)?;
        let bits = width_in(width);
        contents.push(field_with(field.value, bits))?;
        flags = flags.joined(width_flags(width, bits));
    }
    Ok(Sized { contents, flags })
}

/// A width is a number from 1 to 60.
fn width_in(value: ValueNow) -> Option<u8>
    ensures width { result ≡ meaning.width_in value }
    ensures range { IfSome result (λ width. (0 < width) × (width ≤ 60)) }
{
    between(1, MOST_BITS, plain_number(value))
}

fn field_with(value: Expr, width: Option<u8>) -> Content
    requires { IfSome width (λ width. (0 < width) × (width ≤ 60)) }
    ensures content { result ≡ meaning.field_with value width }
    ensures is { IsContent result }
{
    match width {
        None => Content::Unsized(field_hole(0, value)),
        Some(width) => Content::Value(field_hole(width, value)),
    }
}

fn width_flags(value: ValueNow, width: Option<u8>) -> Flags
    ensures { result ≡ meaning.width_flags value width }
{
    let mut flags = Flags::none();
    match value {
        ValueNow::Undefined => flags.undefined = true,
        ValueNow::NoValue => flags.operand = true,
        ValueNow::Known(_) => flags.width = width.is_none(),
    }
    flags
}

fn are_sized(contents: &[Content]) -> bool
    ensures { result ≡ meaning.are_sized contents.now }
{
    contents.iter().all(|content| content.width() > 0)
}

fn place_sized<L: Lookup>(
    recorder: &mut Recorder<'_, L>,
    site: Site,
    sized: Sized,
) -> Result<(), AllocError>
    requires site { IsSite site }
    requires each { All IsContent sized.contents.items }
    ensures { OnOk result (Does (meaning.placing_fields site (record { contents = sized.contents.items; flags = sized.flags })) L.answer recorder.old recorder.new) }
{
    let begun = start_for(site, 0);
    if are_sized(&sized.contents) {
        return place(
            recorder,
            site,
            begun,
            Contents::several(sized.contents),
            false,
        );
    }
    let flags = placing_flags(site).joined(sized.flags);
    place_nothing(
        recorder,
        site,
        begun,
        flags,
        Contents::several(sized.contents),
    )
}
