//! Messages as frames of a byte stream: a flag, a length and a payload (gRPC over HTTP/2).
#![tactic(auto)]

pub mod frame_fault;
mod frame_head;
pub mod frame_laws;
pub mod frame_writing;
pub mod frames;

pub use frame_fault::FrameFault;
pub use frame_laws::{any_pieces, cut_is_the_only_one};
pub use frame_writing::write_frame;
pub use frames::Frames;
