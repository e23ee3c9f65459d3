ghost use Rattle.std.specs.Prelude.{◌≡◌, ℕ, false, IfSome, ◌⊎◌, ◌+◌, ◌*◌, ◌^◌, ◌<◌, ◌≤◌, ◌/◌, ◌-◌, ◌%◌};
ghost use Rattle.cps_code.specs.Bits.{word_bits, parcel_bits};
ghost use Rattle.cps_code.specs.Least.{IsLeast};
ghost use Rattle.cps_code.specs.Place.{position, is_forced, MayBegin, start_of, IsFilling, skipped, passes};

use super::place::{Filling, Force, Place, PlacedInstruction};
use super::widths::{PARCEL, WORD};

/// Where the next `bits` bits begin: 15 or 30 of an instruction, or 0 where the place is only forced.
///
/// They begin at the least place, not before the present one, at a parcel's border (an instruction) and with room
/// in the word, and where forced at a word's beginning. The bits skipped are 0 up to a parcel's border and then
/// pass instructions (46000). Nothing is pending after them.
pub fn place_next(place: Place, bits: u8, force: Force) -> PlacedInstruction
    requires kind { (bits ≡ 0) ⊎ (bits ≡ parcel_bits) ⊎ (bits ≡ 2 * parcel_bits) }
    requires low { place.word < 2 ^ 31 }
    ensures start { IsLeast (MayBegin (position place) bits (is_forced place.is_pending force)) (position result.start) }
    ensures first { position result.start ≡ start_of (position place) bits (is_forced place.is_pending force) }
    ensures after { position result.after ≡ position result.start + bits }
    ensures start_settled { result.start.is_pending ≡ false }
    ensures after_settled { result.after.is_pending ≡ false }
    ensures filling { IsFilling (position place) (position result.start) result.filling }
    ensures skipped { result.filling ≡ skipped (position place) (position result.start) }
    ensures inside { IfSome result.filling (λ filling. (filling.first ≡ place.used) × (0 < filling.width) × (filling.first + filling.width ≤ word_bits) × (filling.number < 2 ^ filling.width)) }
{
    let forced = must_begin_word(place, force);
    let used = used_at_start(place.used, bits, forced);
    let start = place_at(place.word, used);
    let after = place_at(start.word, start.used + bits);
    PlacedInstruction {
        start,
        after,
        filling: filling_between(place.used, used),
    }
}

fn must_begin_word(place: Place, force: Force) -> bool
    ensures { result ≡ is_forced place.is_pending force }
{
    match force {
        Force::Free => place.is_pending,
        Force::NewWord => true,
        Force::Cancel => false,
    }
}

/// The bits of the present word that are used or skipped where the next bits begin.
fn used_at_start(used: u8, bits: u8, forced: bool) -> u8
    requires in_word { used < word_bits }
    requires kind { (bits ≡ 0) ⊎ (bits ≡ parcel_bits) ⊎ (bits ≡ 2 * parcel_bits) }
    ensures least { (word : ℕ) → IsLeast (MayBegin (word_bits * word + used) bits forced) (word_bits * word + result) }
    ensures within { result ≤ word_bits }
    ensures forwards { used ≤ result }
    ensures room { result % word_bits + bits ≤ word_bits }
    ensures border { (result ≡ used) ⊎ ((0 < used) × (result % parcel_bits ≡ 0)) }
{
    if used == 0 {
        return 0;
    }
    let border = if bits == 0 {
        used
    } else {
        used.div_ceil(PARCEL) * PARCEL
    };
    if !forced && border + bits <= WORD {
        border
    } else {
        WORD
    }
}

fn place_at(word: u32, used: u8) -> Place
    requires low { word < 2 ^ 32 - 1 }
    requires within { used ≤ word_bits }
    ensures position { position result ≡ word_bits * word + used }
    ensures settled { result.is_pending ≡ false }
    ensures near { result.word ≤ word + 1 }
    ensures used { result.used ≡ used % word_bits }
{
    if used == WORD {
        Place {
            word: word + 1,
            used: 0,
            is_pending: false,
        }
    } else {
        Place {
            word,
            used,
            is_pending: false,
        }
    }
}

fn filling_between(from: u8, to: u8) -> Option<Filling>
    requires forwards { from ≤ to }
    requires within { to ≤ word_bits }
    requires border { (to ≡ from) ⊎ ((0 < from) × (to % parcel_bits ≡ 0)) }
    ensures filling { (word : ℕ) → IsFilling (word_bits * word + from) (word_bits * word + to) result }
    ensures inside { IfSome result (λ filling. (filling.first ≡ from) × (0 < filling.width) × (filling.first + filling.width ≤ word_bits) × (filling.number < 2 ^ filling.width)) }
{
    if from == to {
        return None;
    }
    let width = to - from;
    Some(Filling {
        first: from,
        width,
        number: passes_in(width / PARCEL),
    })
}

/// Pass instructions, one after the other.
fn passes_in(parcels: u8) -> u64
    requires { parcels ≤ 3 }
    ensures { result ≡ passes parcels }
{
    match parcels {
        0 => 0,
        1 => 0o46000,
        2 => 0o46000_46000,
        _ => 0o46000_46000_46000,
    }
}
