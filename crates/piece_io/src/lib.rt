//! What the program reads and writes through, objects in memory that do the same, and the cutting of a
//! stream into lines.
#![tactic(auto)]

mod call_list;
pub mod files;
pub mod line_cutter;
pub mod mem_files;
pub mod mem_sink;
pub mod mem_source;
pub mod sink;
pub mod source;
pub mod whole;

pub use files::Files;
pub use line_cutter::{Cut, LineCutter};
pub use mem_files::MemFiles;
pub use mem_sink::MemSink;
pub use mem_source::MemSource;
pub use sink::Sink;
pub use source::{Failed, Source};
pub use whole::{FileEnd, read_file, write_whole};
