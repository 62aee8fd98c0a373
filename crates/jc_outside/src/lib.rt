//! The files and texts outside: their traits, and those of the machine and in memory.
#![tactic(auto)]

mod failed_path;
mod files;
mod folder;
mod host_files;
mod host_folder;
mod host_sink;
mod memory_files;
mod memory_sink;
mod planned;
mod sink;

pub use files::{FileFault, Files, MOST_PART};
pub use host_files::HostFiles;
pub use host_sink::HostSink;
pub use memory_files::MemoryFiles;
pub use memory_sink::MemorySink;
pub use sink::{Sink, SinkFault};
