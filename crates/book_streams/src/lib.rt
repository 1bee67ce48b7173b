//! What the state of a channel keeps of the streams of all authorities: one aggregated stream each (Envoy's xDS transport,
//! gRFC A27, A47). Each call's clause says what it makes of them in the words of the whole history.
#![tactic(auto)]

pub mod all_streams;
pub mod asking;
pub mod changed_names;
pub mod due_requests;
pub mod event_turns;
pub mod marked_streams;
pub mod refusal_text;
pub mod stream_marks;
pub mod streams_laws;
pub mod told_keys;

pub use all_streams::Streams;
pub use refusal_text::error_in;
