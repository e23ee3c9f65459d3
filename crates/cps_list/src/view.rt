//! What the texts are written from.
ghost use Rattle.std.specs.Prelude.{◌≡◌, ◌-◌, ◌≤◌, ◌↔◌, length, slice_get, Some, IsSome, IfSome};

use cps_final::{Finals, Gathered, Outcome};
use cps_text::Line;

/// An assembled source: its lines, what pass two makes of each, what stands after the last, and whether a range is
/// open there. Lines count from 1. No call takes memory.
pub trait View {
    ghost use Rattle.std.specs.Prelude.{◌≡◌, ◌-◌, ◌≤◌, ◌↔◌, length, slice_get, Some, IsSome, IfSome};
    ghost use Rattle.cps_list.specs.Assembly.{Assembly};

    ghost assembly: { Self → Assembly };

    /// How many lines there are.
    fn count(&self) -> u32
        ensures lines { result ≡ length (assembly self.now).lines }
        ensures outcomes { result ≡ length (assembly self.now).outcomes };

    /// Line `n`.
    fn line(&self, n: u32) -> Option<&Line>
        ensures there { IsSome result ↔ ((1 ≤ n) × (n ≤ length (assembly self.now).lines)) }
        ensures line { IfSome result (λ line. slice_get (assembly self.now).lines (n - 1) ≡ Some line.now) };

    /// What pass two makes of line `n`.
    fn outcome(&self, n: u32) -> Option<&Outcome>
        ensures there { IsSome result ↔ ((1 ≤ n) × (n ≤ length (assembly self.now).outcomes)) }
        ensures outcome { IfSome result (λ outcome. slice_get (assembly self.now).outcomes (n - 1) ≡ Some outcome.now) };

    /// What stands after the last line.
    fn finals(&self) -> &Finals
        ensures { ⟦<Finals as Gathered>⟧.gathered result.now ≡ (assembly self.now).finals };

    /// Whether a range is open after the last line, or lines are skipped or kept.
    fn open_at_end(&self) -> bool
        ensures { result ≡ (assembly self.now).is_open };
}
