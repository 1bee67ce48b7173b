//! Texts that are handed to a sink, one line at a time, and the search for a byte such as the line feed.
#![tactic(auto)]

pub mod byte_search;
pub mod line_writing;
pub mod out_fault;

pub use byte_search::find_byte;
pub use line_writing::write_lines;
pub use out_fault::OutFault;
