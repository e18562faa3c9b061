// A source, a sink and a clock in memory.
mod calls;
mod clock;
mod sink;
mod source;

pub use clock::MemClock;
pub use sink::MemSink;
pub use source::MemSource;
