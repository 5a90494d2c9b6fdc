//! What the program reads from and writes to: shelves of named bytes, sinks of bytes, and gates of parallel runs.
#![tactic(auto)]

mod file_shelf;
mod gate;
mod mem_shelf;
mod mem_sink;
mod shelf;
mod sink;
mod streams;

pub use file_shelf::FileShelf;
pub use gate::{Gate, Open};
pub use mem_shelf::MemShelf;
pub use mem_sink::MemSink;
pub use shelf::{Shelf, ShelfFault};
pub use sink::{Failed, Sink};
pub use streams::{ErrSink, OutSink};

#[cfg(test)]
mod tests;
