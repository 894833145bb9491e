//! What every crate of the toolchain stands on: want of memory, texts and lists, places in a text, the items that
//! a text in the TPTP language spells, and the outside as the program sees it: stores of files and sinks of bytes.
#![tactic(auto)]

mod item;
mod limit;
mod lookup;
mod memory;
mod memory_sink;
mod memory_store;
mod name;
mod null_sink;
mod place;
mod put;
mod read;
mod real_sink;
mod real_store;
mod sink;
mod steady_sink;
mod steady_store;
mod store;
mod surface;

pub use item::{Annotated, Body, GTerm, Include, Item, Lang, Role, Shape, Typing};
pub use limit::LimitName;
pub use memory::Memory;
pub use memory_sink::MemorySink;
pub use memory_store::MemoryStore;
pub use name::Name;
pub use null_sink::NullSink;
pub use place::{Place, Region, place_at};
pub use put::put_all;
pub use read::{FILE_SIZE, ReadFault, read_whole};
pub use real_sink::RealSink;
pub use real_store::RealStore;
pub use sink::{Sink, SinkFault};
pub use sqlite_items::{Boxed, Items as List};
pub use steady_sink::SteadySink;
pub use steady_store::SteadyStore;
pub use store::{Store, StoreFault};
pub use surface::{BinOp, BoundVar, Quant, STerm, SortName, Surface};

/// A list of bytes.
pub type Text = List<u8>;
