//! The wire form of protobuf messages: bytes are read into a list of fields, the values of a number are
//! found in that list, and fields are written in their shortest spelling.
#![tactic(auto)]

pub mod field;
pub mod field_reader;
pub mod nested;
pub mod oneof;
pub mod values;
pub mod varint;
pub mod wire_laws;
pub mod wrappers;
pub mod writing;

pub use field::{Body, Field, Member, WireFault};
pub use field_reader::fields;
pub use nested::{Message, read_repeated, read_singular};
pub use oneof::{if_set, read_member};
pub use values::{
    join_occurrences, last_bool, last_bytes, last_int64, last_run, last_text, last_uint,
    last_uint32, occurrences, oneof_of, repeated, repeated_copies, texts,
};
pub use writing::{put_bytes, put_number, put_text, put_uint};
