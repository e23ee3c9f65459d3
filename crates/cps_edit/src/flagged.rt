//! How many lines of a source are flagged.
ghost use Rattle.std.specs.Prelude.{◌≡◌, ◌+◌, ◌≤◌, length};
ghost use Rattle.cps_list.specs.Flagged.{flagged_in, flagged_with};

use cps_final::Outcome;

/// How many of these lines have a flag, and one more if a range is open after them. Takes no memory.
pub fn flagged_lines(outcomes: &[Outcome], is_open: bool) -> usize
    ensures count { result ≡ flagged_with is_open outcomes.now }
    ensures within { result ≤ length outcomes.now + 1 }
{
    count_flagged(outcomes) + usize::from(is_open)
}

/// How many of these lines have a flag.
fn count_flagged(outcomes: &[Outcome]) -> usize
    ensures count { result ≡ flagged_in outcomes.now }
    ensures within { result ≤ length outcomes.now }
{
    let mut count = 0;
    for outcome in outcomes {
        if outcome.flags().has_flag() {
            count += 1;
        }
    }
    count
}
