//! What the layers above see of memory, files and sinks: the names of places, four traits, and files and a
//! sink in memory.
//!
//! It stands between the arenas, which implement `Memory`, and the messages, which are generic over it. Its
//! contract: a `Memory` is a finite map from live places and live buffers to their bytes; `Files` and `Sink`
//! answer a fault only where their own count of faults rose; `MemoryFiles` and `MemorySink` tell all of this,
//! and fail at the calls that they were told to.
#![tactic(auto)]

mod calls;
mod file_names;
mod laws;
mod memory;
mod memory_files;
mod memory_sink;
mod named_bytes;
mod outside;
mod part;
mod place;
mod plain_bytes;
mod plain_memory;
mod reading;

pub use file_names::FileNames;
pub use laws::{growths_join, nothing_grows};
pub use memory::{MemFault, Memory};
pub use memory_files::MemoryFiles;
pub use memory_sink::MemorySink;
pub use named_bytes::NamedBytes;
pub use no_memory::NoMemory;
pub use outside::{Failed, Files, Sink};
pub use part::Part;
pub use place::{Buffer, Place};
pub use plain_memory::PlainMemory;

#[cfg(test)]
mod tests;
#[cfg(test)]
mod through;
