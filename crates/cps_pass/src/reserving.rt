//! BSS and BSSZ: reserving words, and words of zeros.
ghost use Rattle.std.specs.Prelude.{◌≡◌, OnOk, option_map};
ghost use Rattle.std.specs.Option.{option_to_list};
ghost use Rattle.cps_code.specs.Image.{piece_of};
ghost use Rattle.cps_code.specs.Place.{position};
ghost use Rattle.cps_state.specs.Code.Line.{Does};
ghost use Rattle.cps_pass.specs.Places.{filling_between};
ghost use Rattle.cps_pass.specs.Reserving as meaning;
ghost use Rattle.cps_pass.specs.Code.Sites.{IsSite, Starts};

use crate::context::Context;
use crate::numbers::{no_number_flags, plain_number};
use crate::places::here_at;
use crate::placing::{
    Site, advance, ask_site, pass_limit, place_nothing, placing_flags, word_start,
};
use crate::value_now::value_now;
use cps_expr::Expr;
use cps_state::{Begun, Contents, Lookup, Made, Recorder, WORD, limit_of};
use std::alloc::AllocError;

/// BSS: reserves words from the beginning of a word on.
pub fn bss<L: Lookup>(
    recorder: &mut Recorder<'_, L>,
    context: Context,
    operand: &Expr,
) -> Result<(), AllocError>
    ensures { OnOk result (Does (meaning.bss context.control context.location operand.now) L.answer recorder.old recorder.new) }
{
    let site = ask_site(recorder, context)?;
    reserve_by(recorder, site, operand, false)
}

/// BSSZ: makes words of zeros from the beginning of a word on.
pub fn bssz<L: Lookup>(
    recorder: &mut Recorder<'_, L>,
    context: Context,
    operand: &Expr,
) -> Result<(), AllocError>
    ensures { OnOk result (Does (meaning.bssz context.control context.location operand.now) L.answer recorder.old recorder.new) }
{
    let site = ask_site(recorder, context)?;
    reserve_by(recorder, site, operand, true)
}

fn reserve_by<L: Lookup>(
    recorder: &mut Recorder<'_, L>,
    site: Site,
    operand: &Expr,
    has_zeros: bool,
) -> Result<(), AllocError>
    requires { IsSite site }
    ensures { OnOk result (Does (meaning.reserving has_zeros operand.now site) L.answer recorder.old recorder.new) }
{
    let alloc = recorder.alloc();
    let begun = word_start(site);
    let here = here_at(site.block, begun.start);
    let value = value_now(recorder, operand, here)?;
    let Some(words) = plain_number(value) else {
        let flags = no_number_flags(site, value);
        return place_nothing(recorder, site, begun, flags, Contents::none(alloc));
    };
    reserve(recorder, site, begun, words, has_zeros)
}

fn reserve<L: Lookup>(
    recorder: &mut Recorder<'_, L>,
    site: Site,
    begun: Begun,
    words: u64,
    has_zeros: bool,
) -> Result<(), AllocError>
    requires starts { Starts site begun.start }
    requires filling { option_to_list (option_map piece_of begun.filling) ≡ filling_between (position site.place) begun.start }
    ensures { OnOk result (Does (meaning.reserved has_zeros site begun.start words) L.answer recorder.old recorder.new) }
{
    let alloc = recorder.alloc();
    let limit = u64::from(limit_of(site.machine));
    if words > limit || u64::from(begun.start / WORD) + words > limit {
        pass_limit(
            recorder,
            site,
            begun.start,
            Contents::none(alloc),
            Vec::new(alloc),
        );
        return Ok(());
    }
    let words = words as u32;
    let after = begun.start + WORD * words;
    advance(recorder, site, begun.start, after, false)?;
    recorder.fill(Made::reserving(
        placing_flags(site),
        site.machine,
        begun,
        if has_zeros { words } else { 0 },
    ));
    Ok(())
}
