//! The edge to the outside: files read by name, their names, and sinks of bytes, of the system or in memory.
//! Promise: what `Files::read` gives is what is told of the name from then on, or it has a reason
//! (`Tells`, `Stays` of specs/Told, `HasReason` of specs/Reasons); `Sink::put` appends the bytes, or a prefix of them where it fails
//! (`AppendsPrefix` of specs/Taken).
//! Used by program_rules, program_files, include_expansion, program_loader and others.
#![tactic(auto)]

mod disk_files;
mod files;
mod mem_files;
mod mem_sink;
mod names;
mod sink;
mod std_sink;

pub use disk_files::DiskFiles;
pub use files::{FileFault, FileKind, Files};
pub use mem_files::MemFiles;
pub use mem_sink::MemSink;
pub use names::{
    folder_of, is_dotted, is_inside, is_outside, name_beside, normal_name, normal_names, root_for,
};
pub use sink::{Sink, SinkFault};
pub use std_sink::StdSink;
