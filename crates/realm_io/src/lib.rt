//! Where bytes come from and go to: sources, sinks, and the calls that read and write whole texts.
#![tactic(auto)]

pub mod adapters;
mod counts;
mod fixed_buffer;
pub mod gates;
pub mod hints;
mod listed;
pub mod memory_sink;
pub mod memory_source;
pub mod reading;
pub mod sinks;
pub mod sources;
pub mod sure;
pub mod text_sink;
pub mod writing;

pub use adapters::{StdSink, StdSource};
pub use gates::{Gate, OpenGate};
pub use hints::Hints;
pub use memory_sink::MemorySink;
pub use memory_source::MemorySource;
pub use reading::{PIECE, ReadEnd, read_all, read_by_start};
pub use sinks::Sink;
pub use sources::{Failed, Source};
pub use sure::{SureSink, SureSource};
pub use text_sink::TextSink;
pub use writing::{WriteFault, put, put_bytes, put_decimal, put_number};
