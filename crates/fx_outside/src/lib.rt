//! What stands outside the program: where its bytes come from, where they go, and counters that contracts see and no
//! program reads.
#![tactic(auto)]

mod memory_sink;
mod memory_source;
mod sink;
mod source;
mod standard;
mod steps;
mod sure;

pub use memory_sink::MemorySink;
pub use memory_source::MemorySource;
pub use sink::{Sink, Write};
pub use source::{Read, Source};
pub use standard::{StdSink, StdSource};
pub use steps::Steps;
pub use sure::{SureSink, SureSource};
