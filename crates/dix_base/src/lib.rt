//! The outside as the layers above see it: a source of bytes, a sink and a store, each with a
//! count of faults, so that a failure always has a cause; and their forms: in memory, some that fail
//! at the calls of a list and some that never fail, and real.
#![tactic(auto)]

mod byte_list;
mod calling;
mod calm_sink;
mod calm_source;
mod calm_store;
mod failed;
mod fault_plan;
mod file_store;
mod held_streams;
mod mem_sink;
mod mem_source;
mod mem_store;
mod read_ahead;
mod reading;
mod sink;
mod size_limit;
mod source;
mod stderr_sink;
mod stdin_source;
mod stdout_sink;
mod store;
mod streams;

pub use byte_list::ByteList;
pub use calling::{unworded, words_of};
pub use calm_sink::CalmSink;
pub use calm_source::CalmSource;
pub use calm_store::CalmStore;
pub use failed::{Failed, StoreFault};
pub use file_store::FileStore;
pub use held_streams::HeldStreams;
pub use mem_sink::MemSink;
pub use mem_source::MemSource;
pub use mem_store::MemStore;
pub use reading::{LONGEST_LINE, MOST_BYTES, Unread, read_all};
pub use sink::Sink;
pub use source::Source;
pub use stderr_sink::StderrSink;
pub use stdin_source::StdinSource;
pub use stdout_sink::StdoutSink;
pub use store::Store;
