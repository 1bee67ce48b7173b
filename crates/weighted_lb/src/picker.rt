//! What a pick chooses from.
ghost use Rattle.std.specs.Prelude.{◌≡◌, ◌↔◌, IsTrue};

use weight_pick::DropRule;
use xc_base::{Address, List, Reason, Same};

/// A READY locality of a priority.
#[derive(Drop)]
pub struct Part {
    /// Its place among the localities of its priority, from 0.
    pub locality: u32,
    /// Its weight, at least 1.
    pub weight: u32,
    /// Its endpoints that are READY, in the configuration's order.
    pub ready: List<Address>,
}

/// The picker of a priority: its drop rules, which come first, and what is behind them.
#[derive(Drop)]
pub struct Picker {
    pub drops: List<DropRule>,
    pub body: PickBody,
}

/// What is behind the drop rules.
#[derive(Drop)]
pub enum PickBody {
    /// The priority is READY: a locality is chosen by weight.
    Ready {
        /// The READY localities, whose weights sum to 1 to 4,294,967,295.
        parts: List<Part>,
        /// The sums of the weights up to each of them.
        sums: List<u64>,
    },
    /// The priority is CONNECTING: calls wait.
    Queue,
    /// The priority fails: calls fail with this reason.
    Fail(Reason),
}

/// What a picker chooses.
#[derive(Clone, Copy)]
pub enum Chosen {
    /// The drop rule of this number, from 1.
    Drop(u32),
    /// The part at this place, from 0.
    Part(u32),
    /// The call waits.
    Queue,
    /// The call fails.
    Fail,
}

impl Same for Part {
    fn same(&self, other: &Part) -> bool {
        self.locality == other.locality
            && self.weight == other.weight
            && self.ready.same(&other.ready)
    }
}

impl Same for Picker {
    fn same(&self, other: &Picker) -> bool {
        self.drops.same(&other.drops) && self.body.same(&other.body)
    }
}

impl Same for PickBody {
    fn same(&self, other: &PickBody) -> bool {
        match (self, other) {
            (PickBody::Ready { parts: a, sums: c }, PickBody::Ready { parts: b, sums: d }) => {
                same_sums(c.as_slice(), d.as_slice()) && a.same(b)
            }
            (PickBody::Queue, PickBody::Queue) => true,
            (PickBody::Fail(a), PickBody::Fail(b)) => a.same(b),
            _ => false,
        }
    }
}

/// Whether two lists of sums are equal.
fn same_sums(sums: &[u64], other: &[u64]) -> bool
    ensures { IsTrue result ↔ (sums.now ≡ other.now) }
{
    sums == other
}
