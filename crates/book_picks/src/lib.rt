//! What picks have taken: a count of the endpoints that were taken in each place where endpoints take turns (gRPC's
//! weighted_target and round_robin policies). Each call's clause says what it makes of them in the words of the whole
//! history.
#![tactic(auto)]

pub mod cluster_places;
pub mod cluster_rows;
pub mod kept_turns;
pub mod part_picks;
pub mod place_counts;
pub mod renewal;
pub mod serving_laws;
pub mod turns_laws;

pub use cluster_rows::Row;
pub use kept_turns::Turns;
pub use place_counts::{PlaceCounts, PlaceKey};
