//! How much is open behind lines.
ghost use Rattle.std.specs.Prelude.{◌≡◌, not, length, Some};
ghost use Rattle.cps_state.specs.Keys.{State, first_state, is_normal, mode_of, overwritten, ranges_of, with_put};
ghost use Rattle.cps_cause.specs.Code.OpenNow.{IsOpenNow, count_of};

use cps_state::{Answer, Key, Put};

/// How much is open: ranges, and beside them lines that are skipped or kept.
#[derive(Clone, Copy)]
pub struct OpenNow {
    ranges: usize,
    /// Whether lines are skipped or kept.
    is_held: bool,
}

impl OpenNow {
    /// Before the first line.
    pub fn new() -> OpenNow
        ensures { IsOpenNow first_state result }
    {
        OpenNow {
            ranges: 0,
            is_held: false,
        }
    }

    /// How much that is.
    pub fn count(self) -> u128
        ensures { result ≡ count_of self }
    {
        self.ranges as u128 + u128::from(self.is_held)
    }

    /// Behind a line that puts this.
    pub fn behind(self, puts: &[Put]) -> OpenNow
        ensures { (state : State) → IsOpenNow state self → IsOpenNow (overwritten state puts.now) result }
    {
        let mut opened = self;
        for put in puts {
            opened = opened.with(put);
        }
        opened
    }

    fn with(self, put: &Put) -> OpenNow
        ensures { (state : State) → IsOpenNow state self → IsOpenNow (with_put state put.now) result }
    {
        match put.key {
            Key::Control => OpenNow {
                ranges: self.ranges,
                is_held: is_held(&put.answer),
            },
            Key::Ifs => OpenNow {
                ranges: ranges_in(&put.answer),
                is_held: self.is_held,
            },
            _ => self,
        }
    }
}

/// Whether lines are skipped or kept, as control says it.
fn is_held(control: &Answer) -> bool
    ensures { result ≡ not (is_normal (mode_of (Some control.now))) }
{
    match control {
        Answer::Control(_, mode) => !mode.is_normal(),
        _ => false,
    }
}

fn ranges_in(ranges: &Answer) -> usize
    ensures { result ≡ length (ranges_of (Some ranges.now)) }
{
    match ranges {
        Answer::Ifs(ranges) => ranges.as_slice().len(),
        _ => 0,
    }
}
