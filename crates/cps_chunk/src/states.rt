//! What stands in front of a line, before an edit and after it.
ghost use Rattle.std.specs.Prelude.{◌≡◌};
ghost use Rattle.std.specs.Option.{option_copied};
ghost use Rattle.cps_state.specs.Course.{last_ask};

use cps_final::Changes;
use cps_state::{Answer, Asked, Hashing, Key, Lookup};

/// What stood in front of a line before an edit: what the line asked then, and else what another look finds.
#[derive(Clone, Copy)]
pub struct FormerState<'a, L> {
    pub asks: &'a [Asked],
    pub past: &'a L,
}

impl<'a, L: Lookup> Lookup for FormerState<'a, L> {
    ghost use Rattle.cps_chunk.specs.Noted.{asked_or};

    ghost answer = { λ known. asked_or known.asks.now (L.answer known.past.now) };

    fn ask(&self, key: &Key) -> Option<&Answer> {
        match asked_at(self.asks, key) {
            Some(answer) => answer.as_ref(),
            None => self.past.ask(key),
        }
    }

    fn hashing(&self) -> Hashing {
        self.past.hashing()
    }
}

/// What stands in front of a line now: changed keys, and else what stood there.
#[derive(Clone, Copy)]
pub struct Overlay<'a, L> {
    pub changes: &'a Changes,
    pub before: &'a L,
}

impl<'a, L: Lookup> Lookup for Overlay<'a, L> {
    ghost use Rattle.cps_final.specs.Changes.{changed};
    ghost use Rattle.cps_final.specs.Code.Kept.{changes_in};

    ghost answer = { λ now. changed (changes_in now.changes.now) (L.answer now.before.now) };

    fn ask(&self, key: &Key) -> Option<&Answer> {
        match self.changes.find(key) {
            Some(answer) => answer.as_ref(),
            None => self.before.ask(key),
        }
    }

    fn hashing(&self) -> Hashing {
        self.before.hashing()
    }
}

/// What stands behind lines that are gone through: what they put, then what is changed in front of them, and else what stood there.
#[derive(Clone, Copy)]
pub struct StateNow<'a, L> {
    pub present: &'a Changes,
    pub changes: &'a Changes,
    pub before: &'a L,
}

impl<'a, L: Lookup> Lookup for StateNow<'a, L> {
    ghost use Rattle.cps_final.specs.Changes.{changed};
    ghost use Rattle.cps_final.specs.Code.Kept.{changes_in};

    ghost answer = { λ now. changed (changes_in now.present.now) (changed (changes_in now.changes.now) (L.answer now.before.now)) };

    fn ask(&self, key: &Key) -> Option<&Answer> {
        if let Some(answer) = self.present.find(key) {
            return answer.as_ref();
        }
        match self.changes.find(key) {
            Some(answer) => answer.as_ref(),
            None => self.before.ask(key),
        }
    }

    fn hashing(&self) -> Hashing {
        self.before.hashing()
    }
}

/// What was answered to an ask of a key, None where it was not asked.
fn asked_at<'a>(asks: &'a [Asked], key: &Key) -> Option<&'a Option<Answer>>
    ensures { option_copied result ≡ last_ask asks.now key.now }
{
    for asked in asks.iter().rev() {
        if asked.key == *key {
            return Some(&asked.answer);
        }
    }
    None
}
