//! What is told what pass one of a line does.

use crate::opened::{Body, Opened};
use crate::scope::Scope;
use cps_state::{Lookup, Recorder};
use std::alloc::AllocError;

/// What is told what pass one of a line does, as it does it. It changes nothing of that, unless it has no memory: then the line isn't done.
pub trait Watcher<L: Lookup> {
    /// A statement comes. Nothing of it is done yet.
    fn see_statement(
        &mut self,
        recorder: &Recorder<'_, L>,
        scope: &Scope,
        text: &[u8],
    ) -> Result<(), AllocError>;

    /// The statement that came last, of this text, opens these, which come next.
    fn see_opened(&mut self, text: &[u8], opened: &Opened<'_>) -> Result<(), AllocError>;

    /// The LOCAL lines of a body that was opened come. The lines behind them are the next statements.
    fn see_locals(&mut self, called: &Body<'_>) -> Result<(), AllocError>;

    /// What was opened last is at its end, where its expansion stands so. The statements go on behind the one that opened it.
    fn see_end(&mut self, scope: &Scope) -> Result<(), AllocError>;

    /// A statement at a depth is too much: the line is dropped, and no more of it comes.
    fn see_dropped(&mut self, depth: u8) -> Result<(), AllocError>;
}

/// Nothing is told.
#[derive(Clone, Copy)]
pub struct Unwatched;

impl<L: Lookup> Watcher<L> for Unwatched {
    #[inline(always)]
    fn see_statement(
        &mut self,
        _recorder: &Recorder<'_, L>,
        _scope: &Scope,
        _text: &[u8],
    ) -> Result<(), AllocError> {
        Ok(())
    }

    #[inline(always)]
    fn see_opened(&mut self, _text: &[u8], _opened: &Opened<'_>) -> Result<(), AllocError> {
        Ok(())
    }

    #[inline(always)]
    fn see_locals(&mut self, _called: &Body<'_>) -> Result<(), AllocError> {
        Ok(())
    }

    #[inline(always)]
    fn see_end(&mut self, _scope: &Scope) -> Result<(), AllocError> {
        Ok(())
    }

    #[inline(always)]
    fn see_dropped(&mut self, _depth: u8) -> Result<(), AllocError> {
        Ok(())
    }
}
