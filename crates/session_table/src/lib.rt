//! The table of sessions that an operator writes: a TOML document, read to its rows, or refused with the
//! first thing that is wrong with it. A `Table` has the rows in the order of the document and finds one by
//! its session's number; a `TableFault` says which row and which key is at fault. `docs/formats.md`, "Session
//! table", has the keys and their ranges. It knows no file: its caller brings the bytes, 65,536 of them at
//! most.
#![tactic(auto)]

mod document;
mod fault;
mod key;
mod row;
mod sentence;
mod table;
mod value;

pub use fault::TableFault;
pub use table::Table;
