//! A stream, as its bytes come.
ghost use Rattle.std.specs.Prelude.{◌≡◌, ◌<◌, [], ◌++◌, IfNone, IfOk, IfSome, IsErrOf, OnErr, OnOk, OnSome, length};
ghost use Rattle.cps_rpc.specs.Messages.{BeginsWithMessage, HasMessage, IsPart, NeverHasMessage};

use crate::front::{Front, front_of};
use std::alloc::{AllocError, Global};
use std::marker::Model;
use thiserror::Error;

/// Why a stream gives no further message.
#[derive(Clone, Copy, Debug, PartialEq, Eq, Error)]
pub enum StreamFault {
    /// What has come begins with no message, and never will.
    #[error("bad header")]
    BadHeader,
    /// There was no memory for the next message, which stays to be taken.
    #[error("no memory")]
    Memory,
}

/// The bytes of a stream that have come behind the messages that were taken. What was taken is dropped when it is more than half of
/// all that is kept, so that fewer bytes are moved than come.
#[derive(Drop)]
pub struct Stream {
    alloc: Global,
    kept: Vec<u8>,
    taken: usize,
}

impl Model for Stream {
    ghost use Rattle.std.specs.Prelude.{List, ℕ, ◌≤◌, drop, length};

    ghost Value = { List ℕ };

    ghost view = { λ stream. drop stream.taken stream.kept.items };

    ghost invariant = { λ stream. stream.taken ≤ length stream.kept.items };
}

impl Stream {
    /// A stream of which no byte has come.
    pub fn new(alloc: Global) -> Stream
        ensures { result ≡ [] }
    {
        Stream {
            alloc,
            kept: Vec::new(alloc),
            taken: 0,
        }
    }

    /// More bytes come.
    pub fn extend(&mut self, piece: &[u8]) -> Result<(), AllocError>
        ensures ok { OnOk result (self.new ≡ self.old ++ piece.now) }
        ensures err { OnErr result (self.new ≡ self.old) }
    {
        if self.taken > self.kept.len() - self.taken {
            drop(self.kept.drain(..self.taken));
            self.taken = 0;
        }
        self.kept.extend_from_slice(piece)
    }

    /// Takes the next message, None where it hasn't come whole.
    pub fn take(&mut self) -> Result<Option<Vec<u8>>, StreamFault>
        ensures message { IfOk result (λ taken. IfSome taken (λ message. BeginsWithMessage self.old message.items self.new)) }
        ensures part { IfOk result (λ taken. IfNone taken (IsPart self.old × (self.new ≡ self.old))) }
        ensures shorter { IfOk result (λ taken. OnSome taken (length self.new < length self.old)) }
        ensures header { IsErrOf result StreamFault.BadHeader → NeverHasMessage self.old }
        ensures memory { IsErrOf result StreamFault.Memory → HasMessage self.old }
        ensures err { OnErr result (self.new ≡ self.old) }
    {
        let come = &self.kept[self.taken..];
        match front_of(come) {
            Front::Part => Ok(None),
            Front::Malformed => Err(StreamFault::BadHeader),
            Front::Message { start, end } => {
                let Ok(message) = come[start..end].to_vec(self.alloc) else {
                    return Err(StreamFault::Memory);
                };
                self.taken += end;
                Ok(Some(message))
            }
        }
    }
}
