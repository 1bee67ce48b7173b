//! The resources of an answered response, as they are taken in.
use crate::part_names::PartNames;
use xc_base::{Authority, Kind, List};
use xds_history::Delivery;

/// What of an answered response is taken in.
#[derive(Drop)]
pub struct Answered {
    /// On whose stream it came.
    pub authority: Authority,
    /// The kind of its resources.
    pub kind: Kind,
    /// The resources in their order.
    pub parts: List<Delivery>,
    /// Their names, where the kind deletes what a response lacks.
    pub names: PartNames,
}
