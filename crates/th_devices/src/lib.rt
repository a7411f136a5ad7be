//! What a program reads from and writes to: sources and sinks, over files, standard streams and
//! memory; whole texts read from them and written to them; and folders, which give them by name.
//!
//! Contracts see four things of a device: the bytes that it has left or holds, if it reports them,
//! whether a call of it may fail, how often it was called, and how many of these calls failed. Real
//! files and streams may fail and do not report their bytes, so clauses on bytes hold only for
//! devices that do.
//!
//! A contract of a program over a folder mentions the folder before and after, and none of the
//! devices that it gave. The system's folder does not report its bytes, so clauses on bytes hold
//! only for folders that do, as the one in memory.
#![tactic(auto)]

// Limits, the calls of devices, why they fail, and the bytes that they pass on.
mod bytes;
mod devices;
mod limits;
mod reasons;

// Devices.
mod choices;
mod errors;
mod file_sinks;
mod files;
mod memory;
mod memory_sources;
mod streams;

// Whole texts.
mod transfer;

// What a folder is, and how the files of a run take their places in it.
mod folders;
mod placing;

// The system's folder, and one in memory for tests.
mod host_folders;
mod memory_folders;

// Laws of the definitions.
pub mod laws;

pub use choices::{OneOf, Untold};
pub use devices::{Counts, Failed, Sink, Source};
pub use errors::StandardError;
pub use file_sinks::FileSink;
pub use files::FileSource;
pub use folders::{Folder, Origin, Target};
pub use host_folders::HostFolder;
pub use limits::{CALL_LIMIT, CALLS_BEFORE};
pub use memory::{TextSink, TextSource};
pub use memory_folders::{MemoryFolder, MemorySink};
pub use memory_sources::MemorySource;
pub use placing::place_all;
pub use reasons::{Reason, Reasons};
pub use streams::{StandardInput, StandardOutput};
pub use transfer::{ReadFault, read_all, write_all};
