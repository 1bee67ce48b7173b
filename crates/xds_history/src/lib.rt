//! The history of a client: the definitions on which the program's statement stands, over the entries of
//! its journal, the newest first, and what they hold as values.
#![tactic(auto)]

pub mod history_laws;
pub mod page;
pub mod responses;
pub mod turns;

pub use page::{ClusterTrees, Glimpse, Mark, Page, PriorityState, Tree, Watched};
pub use resource_check::{Delivery, Prepared, Reading};
pub use responses::Told;
pub use turns::Turn;
