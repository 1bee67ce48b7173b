//! What is judged.
use call_journal::Plan;
use session_lines::Session;
use std::alloc::Global;

/// A session with its plan, and a report of it.
#[derive(Drop)]
pub(crate) struct Trial<'a> {
    pub(crate) alloc: Global,
    pub(crate) session: &'a Session,
    pub(crate) plan: Plan,
    pub(crate) report: &'a [u8],
}
