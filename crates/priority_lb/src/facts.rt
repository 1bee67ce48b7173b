//! What is kept of a child, and one update of it.
ghost use Rattle.std.specs.Prelude.{◌≡◌, ◌||◌};
ghost use Rattle.std.specs.Option.{option_map_or};
ghost use Rattle.priority_lb.specs.ChildWalk.{is_connecting, is_ready, stops};
ghost use Rattle.priority_lb.specs.RunningTimers.{child_end, deactivation_end, end_of, failover_end};
ghost use Rattle.priority_lb.specs.Step.{fresh, is_within, was_reached, unused_after, there_after, connecting_after, timed_after, is_pending, facts_after, view_of};

use crate::view::ChildView;
use xc_base::{State, Time};

/// How long a child that is out of use is kept, in milliseconds: gRFC A56's deactivation timer.
const RETENTION: u64 = 900_000;

/// How long a failover timer runs, in milliseconds (gRFC A56).
const FAILOVER: u64 = 10_000;

/// What is kept of a child.
#[derive(Clone, Copy)]
pub(crate) struct ChildFacts {
    /// Whether it exists.
    pub(crate) there: bool,
    /// The state that it had at the last update.
    pub(crate) state: State,
    /// Whether its failover timer runs.
    pub(crate) pending: bool,
    /// Since when it has been CONNECTING without a break.
    pub(crate) connecting_since: Option<Time>,
    /// Whether it was created CONNECTING or went from READY to CONNECTING.
    pub(crate) timed: bool,
    /// Since when it has been out of use.
    pub(crate) unused_since: Option<Time>,
}

/// A child that no update has seen.
pub(crate) const FRESH: ChildFacts = ChildFacts {
    there: false,
    state: State::Connecting,
    pending: false,
    connecting_since: None,
    timed: false,
    unused_since: None,
};

impl ChildFacts {
    /// The child after an update.
    pub(crate) fn after(self, reached: bool, behind: bool, state: State, now: Time) -> ChildFacts
        ensures { result ≡ facts_after reached behind now state self }
    {
        let unused_since = self.unused_after(reached, behind, now);
        let there = self.there_after(reached, now, unused_since);
        let connecting_since = self.connecting_after(there, state, now);
        let timed = self.timed_after(there, state);
        ChildFacts {
            there,
            state,
            pending: is_pending(timed, now, connecting_since),
            connecting_since,
            timed,
            unused_since,
        }
    }

    /// Whether the walk stops at it once it is reached.
    pub(crate) fn stops(self) -> bool
        ensures { result ≡ (is_ready self.state || self.pending) }
    {
        is_ready(self.state) || self.pending
    }

    /// What is seen of it.
    pub(crate) fn view(self) -> ChildView
        ensures { result ≡ view_of self }
    {
        ChildView {
            there: self.there,
            state: self.state,
            pending: self.pending,
            unused: self.there && self.unused_since.is_some(),
        }
    }

    /// When the first of its timers that run ends, or the last of all times where none runs.
    pub(crate) fn first_end(self) -> Time
        ensures { result.0 ≡ child_end self }
    {
        Time(self.failover_end().min(self.deactivation_end()))
    }

    /// When its failover timer ends.
    fn failover_end(self) -> u64
        ensures { result ≡ failover_end self }
    {
        if self.pending {
            end_since(FAILOVER, self.connecting_since, 0)
        } else {
            u64::MAX
        }
    }

    /// When its deactivation timer ends.
    fn deactivation_end(self) -> u64
        ensures { result ≡ deactivation_end self }
    {
        if self.there {
            end_since(RETENTION, self.unused_since, u64::MAX)
        } else {
            u64::MAX
        }
    }

    /// Whether a walk has reached it since it was named.
    fn was_reached(self) -> bool
        ensures { result ≡ was_reached self }
    {
        self.there || self.unused_since.is_some()
    }

    /// Since when it is out of use after an update.
    fn unused_after(self, reached: bool, behind: bool, now: Time) -> Option<Time>
        ensures { result ≡ unused_after reached behind now self }
    {
        if reached || !self.was_reached() {
            return None;
        }
        match self.unused_since {
            Some(since) => Some(since),
            None => behind.then_some(now),
        }
    }

    /// Whether it exists after an update.
    fn there_after(self, reached: bool, now: Time, unused_since: Option<Time>) -> bool
        ensures { result ≡ there_after reached now self unused_since }
    {
        (reached || self.was_reached()) && is_within_since(RETENTION, now, unused_since, true)
    }

    /// Since when it is CONNECTING after an update.
    fn connecting_after(self, there: bool, state: State, now: Time) -> Option<Time>
        ensures { result ≡ connecting_after there now state self }
    {
        if there && is_connecting(state) {
            Some(self.connecting_since.unwrap_or(now))
        } else {
            None
        }
    }

    /// Whether a failover timer belongs to its being CONNECTING after an update.
    fn timed_after(self, there: bool, state: State) -> bool
        ensures { result ≡ timed_after there state self }
    {
        if !there || !is_connecting(state) {
            return false;
        }
        match self.connecting_since {
            Some(_) => self.timed,
            None => !self.there || is_ready(self.state),
        }
    }
}

/// Whether the state is READY.
pub(crate) fn is_ready(state: State) -> bool
    ensures { result ≡ is_ready state }
{
    matches!(state, State::Ready)
}

/// Whether the state is CONNECTING.
pub(crate) fn is_connecting(state: State) -> bool
    ensures { result ≡ is_connecting state }
{
    matches!(state, State::Connecting)
}

/// Whether fewer milliseconds than the limit have passed.
fn is_within(limit: u64, now: Time, since: Time) -> bool
    ensures { result ≡ is_within limit now since }
{
    now.0.saturating_sub(since.0) < limit
}

/// The same since a time, or the given answer where there is none.
fn is_within_since(limit: u64, now: Time, since: Option<Time>, never: bool) -> bool
    ensures { result ≡ option_map_or (λ since. is_within limit now since) since never }
{
    match since {
        Some(since) => is_within(limit, now, since),
        None => never,
    }
}

/// Whether the failover timer runs.
fn is_pending(timed: bool, now: Time, connecting_since: Option<Time>) -> bool
    ensures { result ≡ is_pending timed now connecting_since }
{
    timed && is_within_since(FAILOVER, now, connecting_since, false)
}

/// When a timer of so many milliseconds ends that began then, or the given time where none began.
fn end_since(limit: u64, since: Option<Time>, never: u64) -> u64
    ensures { result ≡ option_map_or (end_of limit) since never }
{
    match since {
        Some(since) => since.0.saturating_add(limit),
        None => never,
    }
}
