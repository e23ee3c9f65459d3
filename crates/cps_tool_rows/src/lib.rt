//! Tests of runs with readers and writers that are slow or fail: scripts, batch assembly, calls of the program, and a server for editors.
//!
//! - `assertions.rt`: assertions
//! - `batch_rows.rt`: sources that are read whole
//! - `call_rows.rt`: calls of the program whose devices fail, and of its server
//! - `disassembly_rows.rt`: calls that make a source for an octal text
//! - `editor.rt`: what a server for editors stands on
//! - `endless_rows.rt`: readers that never end
//! - `run_rows.rt`: what is done with devices, and what is counted of them
//! - `running.rt`: runs of scripts and of batch assembly
//! - `server.rt`: conversations with a server
#![tactic(auto)]

#[cfg(test)]
mod assertions;
#[cfg(test)]
mod batch_rows;
#[cfg(test)]
mod call_rows;
#[cfg(test)]
mod disassembly_rows;
#[cfg(test)]
mod editor;
#[cfg(test)]
mod endless_rows;
#[cfg(test)]
mod run_rows;
#[cfg(test)]
mod running;
#[cfg(test)]
mod server;
