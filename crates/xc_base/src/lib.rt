//! Names and small values that every layer shares: texts, lists and shared values, keys and calls,
//! reasons, draws, and the traits of what lies outside (a source and a sink of bytes).
#![tactic(auto)]

pub mod addresses;
pub mod call;
pub mod draws;
pub mod list;
pub mod memory;
pub mod memory_streams;
pub mod names;
pub mod numbers;
pub mod outside;
pub mod reason;
pub mod same;
pub mod shared;
pub mod std_streams;
pub mod steps;
pub mod streams;
pub mod text;

pub use addresses::reading::{address, address_of, addresses_are_numeric, is_numeric_host};
pub use addresses::{Address, AddressFault};
pub use call::{Call, Header, Node};
pub use draws::draw;
pub use list::List;
pub use memory::Memory;
pub use memory_streams::{BytesSink, BytesSource};
pub use names::{Authority, CallId, Home, Key, Kind, NameFault, State, Time};
pub use numbers::{numbers_are_decimal, read_number};
pub use outside::{Failed, Sink, Source};
pub use reason::Reason;
pub use same::Same;
pub use shared::Shared;
pub use std_streams::{StdSink, StdSource};
pub use steps::Steps;
pub use streams::{ReadFault, read_all, write_all};
pub use text::Text;
