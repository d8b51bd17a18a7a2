//! The outside of a program: where its bytes come from, where they go, and how often either failed.
#![tactic(auto)]

mod clean;
mod mem_sink;
mod mem_source;
mod outside;
mod standard;
mod unread;

pub use clean::{CleanSink, CleanSource};
pub use mem_sink::MemSink;
pub use mem_source::MemSource;
pub use outside::{Failed, Sink, Source};
pub use standard::{StdSink, StdSource};
