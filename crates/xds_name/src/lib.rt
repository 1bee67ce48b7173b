//! Resource names: their canonical texts, where they live, and the listener that a channel's target
//! names (gRFC A27, A47).
#![tactic(auto)]

pub mod canonical_text;
pub mod homes;
pub mod name_laws;
mod name_parts;
mod name_texts;
pub mod target;
mod target_forms;
mod templates;

pub use canonical_text::{canonical, canonical_name};
pub use homes::{name_key, parse_name, type_name};
pub use name_laws::{
    canonical_names_stay, names_have_forms, parameters_are_in_order, targets_have_forms,
};
pub use target::{Target, TargetFault, listener_name};
