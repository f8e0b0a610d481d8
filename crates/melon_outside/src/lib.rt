//! What stands outside: a source of bytes, a sink and a keeper, their forms in memory, and the adapters over std.
#![tactic(auto)]

pub mod arrivals;
pub mod duplex;
pub mod keeper;
pub mod kept;
pub mod keys;
pub mod memory;
pub mod memory_keeper;
pub mod open_fault;
pub mod orders;
mod shelf;
pub mod sink;
pub mod source;
pub mod tcp;

pub use arrivals::{Arrivals, MemoryArrivals};
pub use duplex::{Duplex, MemoryConn, StreamConn, send_all};
pub use keeper::{Keeper, KeeperError};
pub use kept::{Kept, KeptBatch, KeptKey, KeptRow, KeptStore, KeptValue, OpenFault};
pub use memory::{MemorySink, MemorySource};
pub use memory_keeper::MemoryKeeper;
pub use orders::are_stores;
pub use sink::{Sink, StdSink, write_all};
pub use source::{ReadFault, Source, StdSource, read_all};
pub use tcp::TcpArrivals;

/// A call of something outside failed. Its count of faults says so.
#[derive(Clone, Copy, Debug, PartialEq, Eq)]
pub struct Failed;
