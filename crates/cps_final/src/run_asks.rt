//! What is kept of a run of lines, so that it is gone through as one line is.
ghost use Rattle.std.specs.Prelude.{◌≡◌, IfOk};
ghost use Rattle.cps_final.specs.Code.RunGathering.{kept_run};

use crate::outside::outside_asks;
use cps_state::{Asked, Hashing, Trace};
use std::alloc::{AllocError, Global};
use std::marker::Model;

/// What a run of lines asks of the state in front of it, in a list without room for more.
#[derive(Drop)]
pub struct RunAsks {
    asks: Vec<Asked>,
}

impl Model for RunAsks {
    ghost use Rattle.cps_final.specs.Code.RunGathering.{KeptRun};

    ghost Value = { KeptRun };

    ghost view = { λ run. record { asks = run.asks.items } };
}

impl RunAsks {
    /// Of lines that did this.
    pub fn of(alloc: Global, hashing: Hashing, traces: &[Trace]) -> Result<RunAsks, AllocError>
        ensures { IfOk result (λ run. run ≡ kept_run traces.now) }
    {
        let asks = outside_asks(alloc, hashing, traces)?;
        Ok(RunAsks { asks })
    }

    /// What it asks, each key once.
    pub fn asks(&self) -> &[Asked]
        ensures { result.now ≡ self.now.asks }
    {
        self.asks.as_slice()
    }
}
