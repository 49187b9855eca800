//! What the program reads from and writes to: sources, sinks and backings, with the ones in memory
//! and the thin adapters over std.
#![tactic(auto)]

mod areas;
mod armed;
mod backing;
mod folder;
mod memory_backing;
mod memory_sink;
mod memory_source;
mod plan;
mod planned_backing;
mod sink;
mod source;
mod std_sink;
mod std_source;

pub use armed::Armed;
pub use backing::Backing;
pub use folder::Folder;
pub use memory_backing::SureBacking;
pub use memory_sink::{MemSink, SureSink};
pub use memory_source::{MemSource, SureSource};
pub use planned_backing::MemBacking;
pub use sink::Sink;
pub use source::Source;
pub use std_sink::StdSink;
pub use std_source::StdSource;
