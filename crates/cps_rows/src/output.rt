//! Tests of texts that go into files, where one call of the files fails.
//!
//! - `name_rows.rt`: names that lead to one file
//! - `running.rt`: a source, and what becomes of its texts
//! - `shelf.rt`: files in memory
//! - `writing_rows.rt`: what is told, and which files are placed

mod name_rows;
mod running;
mod shelf;
mod writing_rows;
