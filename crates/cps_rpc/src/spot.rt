//! A place among lines.
ghost use Rattle.std.specs.Prelude.{ℕ, ◌<◌, List, map, length};
ghost use Rattle.cps_rpc.specs.Code.Spots.{IsBehindBoth, IsSpot, IsSpotOf};

use crate::encoding::Encoding;
use crate::place::place_in;
use crate::position::Position;
use cps_input::without_return;

/// A place among lines: a line, and a byte of it.
#[derive(Clone, Copy)]
pub struct Spot {
    pub line: usize,
    pub byte: usize,
}

impl Spot {
    /// Where a position stands among lines.
    pub fn of(lines: &[Vec<u8>], encoding: Encoding, position: Position) -> Spot
        requires { 0 < length lines.now }
        ensures { IsSpotOf encoding (map (λ line. line.items) lines.now) position result }
    {
        let number = position.line as usize;
        let last = lines.len() - 1;
        if last < number {
            return Spot {
                line: last,
                byte: lines[last].len(),
            };
        }
        let line = without_return(&lines[number]);
        Spot {
            line: number,
            byte: place_in(encoding, line, position.character),
        }
    }

    /// The one of two that stands behind the other.
    pub fn max(self, other: Spot) -> Spot
        ensures { (lines : List (List ℕ)) → IsSpot lines self → IsSpot lines other → IsBehindBoth lines self other result }
    {
        if self.line < other.line {
            return other;
        }
        if other.line < self.line {
            return self;
        }
        Spot {
            line: self.line,
            byte: self.byte.max(other.byte),
        }
    }
}
