//! Places of a block, and what is skipped between two of them.
ghost use Rattle.std.specs.Prelude.{◌≡◌, ℕ, ◌⊎◌, ◌+◌, ◌*◌, ◌≤◌, ◌<◌, ◌^◌, IfOk, IfSome, OnOk, option_map};
ghost use Rattle.std.specs.Option.{option_to_list};
ghost use Rattle.cps_code.specs.Place.{position, start_of, is_forced};
ghost use Rattle.cps_code.specs.Image.{piece_of};
ghost use Rattle.cps_state.specs.Keys.{place_of};
ghost use Rattle.cps_state.specs.Code.Line.{line_answer, line_asked, line_put, line_stood};
ghost use Rattle.cps_state.specs.Machines.{limit};
ghost use Rattle.cps_pass.specs.Places as places;

use cps_code::{Filling, Force, Piece, Place, place_next};
use cps_expr::{Machine, Value};
use cps_state::{Answer, Begun, Control, Key, Lookup, Recorder, WORD, place_of};
use cps_text::Name;
use std::alloc::AllocError;

/// The beginning of the next word, if one has been begun.
pub fn leave_word(place: Place) -> Begun
    requires { place.word < 2 ^ 26 }
    ensures start { result.start ≡ places.place_left place }
    ensures filling { option_to_list (option_map piece_of result.filling) ≡ places.filling_between (position place) (places.place_left place) }
    ensures not_before { position place ≤ result.start }
    ensures word { (word : ℕ) → position place ≤ 60 * word → result.start ≤ 60 * word }
{
    begin(place, 0, Force::NewWord)
}

/// The least place where so many bits may begin: 15 or 30 of an instruction, or 0 where the place is only forced.
pub fn begin(place: Place, bits: u8, force: Force) -> Begun
    requires kind { (bits ≡ 0) ⊎ (bits ≡ 15) ⊎ (bits ≡ 30) }
    requires low { place.word < 2 ^ 26 }
    ensures start { result.start ≡ start_of (position place) bits (is_forced place.is_pending force) }
    ensures filling { option_to_list (option_map piece_of result.filling) ≡ places.filling_between (position place) (start_of (position place) bits (is_forced place.is_pending force)) }
    ensures not_before { position place ≤ result.start }
    // It is not past the next word's beginning.
    ensures word { (word : ℕ) → position place ≤ 60 * word → result.start ≤ 60 * word }
{
    let placed = place_next(place, bits, force);
    Begun {
        start: WORD * placed.start.word + u32::from(placed.start.used),
        filling: filling_at(place, placed.filling),
    }
}

/// Where a block goes on after bits: a peripheral processor's word that was begun is left.
pub fn round_up(machine: Machine, at: u32) -> u32
    requires { at ≤ 60 * limit machine }
    ensures { result ≡ places.rounded_up machine at }
{
    match machine {
        Machine::Cp => at,
        Machine::Pp => WORD * at.div_ceil(WORD),
    }
}

fn filling_at(place: Place, filling: Option<Filling>) -> Option<Piece>
    requires low { place.word < 2 ^ 31 }
    requires inside { IfSome filling (λ f. (f.first ≡ place.used) × (0 < f.width) × (f.first + f.width ≤ 60) × (f.number < 2 ^ f.width)) }
    ensures { option_to_list (option_map piece_of result) ≡ places.filling_at (position place) filling }
{
    match filling {
        None => None,
        Some(filling) => Some(Piece {
            address: place.word,
            first: place.used,
            width: filling.width,
            number: filling.number,
            times: 1,
        }),
    }
}

/// The address of the word in which a place is, as a value: what `*` stands for there. The place is told by the bits before it.
pub fn here_at(block: Option<Name>, at: u32) -> Value
    ensures { result ≡ places.here_at block at }
{
    Value {
        block,
        offset: i64::from(at / WORD),
    }
}

/// Where the block in use stands, which is asked. The statement stands there.
pub fn stand<L: Lookup>(
    recorder: &mut Recorder<'_, L>,
    control: Control,
) -> Result<Place, AllocError>
    ensures stands { OnOk result (recorder.new ≡ line_stood (line_asked L.answer recorder.old (Key.Counter control.block)) control.block) }
    ensures place { IfOk result (λ place. place ≡ place_of control.machine (line_answer L.answer recorder.old (Key.Counter control.block))) }
    ensures within { IfOk result (λ place. position place ≤ 60 * limit control.machine) }
{
    let counter = recorder.note(Key::Counter(control.block))?;
    let place = place_of(recorder.answer(counter), control.machine);
    recorder.stand(control.block);
    Ok(place)
}

/// A block goes on after so many bits.
pub fn go_on<L: Lookup>(
    recorder: &mut Recorder<'_, L>,
    block: Option<Name>,
    at: u32,
    is_pending: bool,
) -> Result<(), AllocError>
    ensures { OnOk result (recorder.new ≡ line_put recorder.old (places.place_put block at is_pending)) }
{
    recorder.put(
        Key::Counter(block),
        Answer::Counter(Place::behind(at, is_pending)),
    )
}
