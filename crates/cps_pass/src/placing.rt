//! What all placing statements share.
ghost use Rattle.std.specs.Prelude.{◌≡◌, ◌⊎◌, ◌<◌, [], All, OnOk, IfOk, option_map};
ghost use Rattle.std.specs.Option.{option_to_list};
ghost use Rattle.cps_code.specs.Image.{piece_of};
ghost use Rattle.cps_code.specs.Place.{position};
ghost use Rattle.cps_state.specs.Code.Line.{Does, Hands, line_filled};
ghost use Rattle.cps_state.specs.Made.{width_of, IsContent, IsHeld};
ghost use Rattle.cps_pass.specs.Placing as placing;
ghost use Rattle.cps_pass.specs.Places.{filling_between};
ghost use Rattle.cps_pass.specs.Code.Sites.{IsSite, Starts};

use crate::context::Context;
use crate::holding::hold;
use crate::located::{define, is_taken};
use crate::places::{begin, go_on, here_at, leave_word, round_up, stand};
use crate::reading::Location;
use cps_code::{Force, Place};
use cps_expr::Machine;
use cps_state::{Begun, Contents, Flags, Lookup, Made, Recorder, SetValue, end_of};
use cps_text::Name;
use std::alloc::AllocError;

/// Where a placing statement stands, and its location field.
#[derive(Clone, Copy, PartialEq, Eq)]
pub struct Site {
    pub machine: Machine,
    /// The block in use; None is the nominal one.
    pub block: Option<Name>,
    /// The place in it.
    pub place: Place,
    pub location: Location,
    /// Whether the symbol of the location field has a value already.
    pub is_taken: bool,
}

/// What a placing statement asks.
pub fn ask_site<L: Lookup>(
    recorder: &mut Recorder<'_, L>,
    context: Context,
) -> Result<Site, AllocError>
    ensures site { IfOk result (λ site. Hands (placing.asking_site context.control context.location) site L.answer recorder.old recorder.new) }
    ensures is { IfOk result IsSite }
    ensures machine { IfOk result (λ site. site.machine ≡ context.control.machine) }
{
    let place = stand(recorder, context.control)?;
    let is_taken = is_taken(recorder, context.location)?;
    Ok(Site {
        machine: context.control.machine,
        block: context.control.block,
        place,
        location: context.location,
        is_taken,
    })
}

/// Where a statement starts that begins a word.
pub fn word_start(site: Site) -> Begun
    requires { IsSite site }
    ensures start { result.start ≡ placing.word_start site }
    ensures starts { Starts site result.start }
    ensures filling { option_to_list (option_map piece_of result.filling) ≡ filling_between (position site.place) result.start }
{
    leave_word(site.place)
}

/// Where so many bits start, 15 or 30 of an instruction; 0 stands for a field of any width.
pub fn start_for(site: Site, bits: u8) -> Begun
    requires site { IsSite site }
    requires kind { (bits ≡ 0) ⊎ (bits ≡ 15) ⊎ (bits ≡ 30) }
    ensures start { result.start ≡ placing.start_for site bits }
    ensures starts { Starts site result.start }
    ensures filling { option_to_list (option_map piece_of result.filling) ≡ filling_between (position site.place) result.start }
{
    begin(site.place, bits, force_of(site.location))
}

fn force_of(location: Location) -> Force
    ensures { result ≡ placing.force_of location }
{
    match location {
        Location::Absent => Force::Free,
        Location::Plus => Force::NewWord,
        Location::Minus => Force::Cancel,
        Location::Symbol(_) => Force::NewWord,
        Location::NoSymbol => Force::Free,
    }
}

fn is_no_symbol(location: Location) -> bool
    ensures { result ≡ placing.is_no_symbol location }
{
    match location {
        Location::NoSymbol => true,
        _ => false,
    }
}

pub fn placing_flags(site: Site) -> Flags
    ensures { result ≡ placing.placing_flags site }
{
    let mut flags = Flags::none();
    flags.location = is_no_symbol(site.location);
    flags.twice = site.is_taken;
    flags
}

/// The flags of a placing statement whose operands can't be read, or have no value.
pub fn unread_flags(site: Site) -> Flags
    ensures { result ≡ placing.unread_flags site }
{
    let mut flags = placing_flags(site);
    flags.operand = true;
    flags
}

/// The flags of one that would pass the machine's words.
pub fn far_flags(site: Site) -> Flags
    ensures { result ≡ placing.far_flags site }
{
    let mut flags = placing_flags(site);
    flags.structure = true;
    flags
}

/// The block goes on at a place, and the symbol gets the address of the statement's first word.
pub fn advance<L: Lookup>(
    recorder: &mut Recorder<'_, L>,
    site: Site,
    start: u32,
    after: u32,
    is_pending: bool,
) -> Result<(), AllocError>
    ensures { OnOk result (Does (placing.advancing site start after is_pending) L.answer recorder.old recorder.new) }
{
    go_on(recorder, site.block, after, is_pending)?;
    define(
        recorder,
        site.location,
        site.is_taken,
        here_at(site.block, start),
    )
}

/// A placing statement that makes nothing because of its operands; it forces, and its symbol is defined.
#[tactic(auto, unfolding(crate::specs::Placing::unplaced))]
pub fn place_nothing<L: Lookup>(
    recorder: &mut Recorder<'_, L>,
    site: Site,
    begun: Begun,
    flags: Flags,
    contents: Contents,
) -> Result<(), AllocError>
    requires filling { option_to_list (option_map piece_of begun.filling) ≡ filling_between (position site.place) begun.start }
    requires each { All IsContent contents }
    ensures { OnOk result (Does (placing.unplaced flags site begun.start contents) L.answer recorder.old recorder.new) }
{
    let held = hold(recorder, contents.as_slice())?;
    advance(recorder, site, begun.start, begun.start, false)?;
    recorder.fill(Made::flagging(flags, site.machine, begun, contents, held));
    Ok(())
}

/// The same of one whose operands can't be read.
pub fn place_unread<L: Lookup>(
    recorder: &mut Recorder<'_, L>,
    site: Site,
    begun: Begun,
) -> Result<(), AllocError>
    requires { option_to_list (option_map piece_of begun.filling) ≡ filling_between (position site.place) begun.start }
    ensures { OnOk result (Does (placing.unread_from site begun.start) L.answer recorder.old recorder.new) }
{
    let alloc = recorder.alloc();
    place_nothing(
        recorder,
        site,
        begun,
        unread_flags(site),
        Contents::none(alloc),
    )
}

/// One that would pass the machine's words makes nothing; nothing is put.
pub fn pass_limit<L: Lookup>(
    recorder: &mut Recorder<'_, L>,
    site: Site,
    start: u32,
    contents: Contents,
    held: Vec<SetValue>,
)
    requires each { All IsContent contents }
    requires held { All IsHeld held.items }
    ensures { recorder.new ≡ line_filled recorder.old (placing.only_flagging (placing.far_flags site) site [] start contents held.items) }
{
    recorder.fill(Made::flagging(
        far_flags(site),
        site.machine,
        Begun {
            start,
            filling: None,
        },
        contents,
        held,
    ));
}

/// Contents, one after another.
#[tactic(auto, unfolding(crate::specs::Placing::placed))]
pub fn place<L: Lookup>(
    recorder: &mut Recorder<'_, L>,
    site: Site,
    begun: Begun,
    contents: Contents,
    is_pending: bool,
) -> Result<(), AllocError>
    requires starts { Starts site begun.start }
    requires filling { option_to_list (option_map piece_of begun.filling) ≡ filling_between (position site.place) begun.start }
    requires each { All IsContent contents }
    requires some { All (λ content. 0 < width_of content) contents }
    ensures { OnOk result (Does (placing.placed site begun.start contents is_pending) L.answer recorder.old recorder.new) }
{
    let held = hold(recorder, contents.as_slice())?;
    let Some(end) = end_of(site.machine, begun.start, contents.as_slice()) else {
        pass_limit(recorder, site, begun.start, contents, held);
        return Ok(());
    };
    let after = round_up(site.machine, end);
    advance(recorder, site, begun.start, after, is_pending)?;
    recorder.fill(Made::placing(placing_flags(site), site.machine, begun, contents, held));
    Ok(())
}
