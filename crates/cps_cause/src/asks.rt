//! What a line asked, as what answers it again.

use cps_state::{Answer, Asked, Hashing, Key, Lookup};
use std::alloc::{AllocError, Global};
use std::collections::HashMap;

/// What a line asked, as what answers it again. At a key that it didn't ask nothing stands.
#[derive(Drop)]
pub struct Asks {
    answers: HashMap<Key, Answer, Hashing>,
}

impl Lookup for Asks {
    ghost use Rattle.std.specs.HashMap as hash;

    ghost answer = { λ asks. hash.get ⟦<Key as PartialEq>⟧.eq asks.answers };

    fn ask(&self, key: &Key) -> Option<&Answer> {
        self.answers.get(key)
    }

    fn hashing(&self) -> Hashing {
        *self.answers.hasher()
    }
}

impl Asks {
    /// Of these asks. The answers are shared.
    pub fn of(alloc: Global, hashing: Hashing, asks: &[Asked]) -> Result<Asks, AllocError> {
        let mut answers = HashMap::with_hasher(alloc, hashing);
        for asked in asks {
            if let Some(answer) = &asked.answer {
                let answer = answer.share()?;
                answers.insert(asked.key, answer)?;
            }
        }
        Ok(Asks { answers })
    }
}
