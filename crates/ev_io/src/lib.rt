//! The outside of a run: a shelf of documents to read, sinks of bytes to write, and a gate.
//! Takes the name of a document, or a piece of bytes; gives the bytes read, or whether the piece was taken whole.
//! Contract (`Shelf`, `Sink`): a read or a put fails only where its device's count of faults rose, or a read for want of
//! memory; a failed put took a first part of the piece. The devices in memory tell exactly what they hold, took and were
//! asked; files and streams keep the same promises.
//! Seen by `edge_run` and `edgeql_cli`.
#![tactic(auto)]

mod edge;
mod gate;
mod memory_shelf;
mod memory_sink;
mod shelf;
mod sink;

pub use edge::{FileShelf, StreamSink};
pub use gate::{Gate, OpenGate};
pub use memory_shelf::{File, MemShelf, ReadCall};
pub use memory_sink::{FailingPut, MemSink};
pub use shelf::{Shelf, ShelfError};
pub use sink::{Sink, SinkError};
