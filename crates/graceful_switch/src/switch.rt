//! What serves, and what waits to serve.
ghost use Rattle.std.specs.Prelude.{◌≡◌, Some, None, option_map};
ghost use Rattle.std.specs.Borrow.{Lends, LendsIf, sem};
ghost use Rattle.xc_base.specs.declared.names.State.{State};
ghost use Rattle.graceful_switch.specs.Takeover.{has_to_wait, settled, replaced, with_serving, with_waiting};
ghost use Rattle.graceful_switch.specs.contracts.switch.Switch.{the_row};

use std::marker::Model;
use std::mem;
use xc_base::State;

/// What has a state of connectivity, as a balancer's tree has the state of its chosen child.
pub trait Serves {
    ghost states: { Self → State };

    /// Its state: CONNECTING, READY or TRANSIENT_FAILURE.
    fn state(&self) -> State
        ensures { result ≡ states self.now };
}

/// What serves, and what waits to serve, if anything does. No call of it takes memory.
#[derive(Drop)]
pub struct Switch<T> {
    serving: T,
    waiting: Option<T>,
}

impl<T> Model for Switch<T> {
    ghost use Rattle.graceful_switch.specs.Takeover.{Pair};

    ghost Value = { Pair T };

    ghost view = { λ s. record { serving = s.serving; waiting = s.waiting } };
}

impl<T: Serves + Drop> Switch<T> {
    /// This one serves, and none waits.
    pub fn new(old: T) -> Switch<T>
        ensures { result ≡ record { serving = old; waiting = None } }
    {
        Switch {
            serving: old,
            waiting: None,
        }
    }

    /// The new one waits, in place of one that waited, which is handed back. It answers `None` where
    /// none waited.
    pub fn replace(&mut self, new: T) -> Option<T>
        ensures waits { self.new ≡ record { serving = self.old.serving; waiting = Some new } }
        ensures back { result ≡ self.old.waiting }
    {
        self.waiting.replace(new)
    }

    /// None waits any more, and one that waited is handed back. It answers `None` where none waited.
    pub fn back(&mut self) -> Option<T>
        ensures alone { self.new ≡ record { serving = self.old.serving; waiting = None } }
        ensures back { result ≡ self.old.waiting }
    {
        self.waiting.take()
    }

    /// The one that waits takes over, unless it is CONNECTING and the old one READY. Where it takes
    /// over, the old one is handed back. It answers `None` where the old one still serves.
    pub fn settle(&mut self) -> Option<T>
        ensures settled { self.new ≡ settled T.states self.old.serving self.old.waiting }
        ensures back { result ≡ replaced T.states self.old.serving self.old.waiting }
    {
        let new = self.waiting.take()?;
        if has_to_wait(self.serving.state(), new.state()) {
            self.waiting = Some(new);
            None
        } else {
            Some(mem::replace(&mut self.serving, new))
        }
    }

    /// What serves.
    pub fn serving(&self) -> &T
        ensures { result.now ≡ self.now.serving }
    {
        &self.serving
    }

    /// What serves, to change.
    pub fn serving_mut(&mut self) -> &mut T
        ensures* writes_back { sem 𝓛 (Lends (the_row T.row) T.row self.entry result (with_serving self.old)) }
        ensures value { result.now ≡ self.old.serving }
    {
        &mut self.serving
    }

    /// What waits to serve, or `None` where nothing does.
    pub fn waiting(&self) -> Option<&T>
        ensures { option_map (λ r. r.now) result ≡ self.now.waiting }
    {
        self.waiting.as_ref()
    }

    /// What waits to serve, to change, or `None` where nothing does.
    pub fn waiting_mut(&mut self) -> Option<&mut T>
        ensures* writes_back { sem 𝓛 (LendsIf (the_row T.row) T.row self.entry result (with_waiting self.old) self.old) }
        ensures value { option_map (λ r. r.now) result ≡ self.old.waiting }
    {
        self.waiting.as_mut()
    }
}

/// Whether one in the state `new` waits while one in the state `old` serves.
fn has_to_wait(old: State, new: State) -> bool
    ensures { result ≡ has_to_wait old new }
{
    matches!((old, new), (State::Ready, State::Connecting))
}
