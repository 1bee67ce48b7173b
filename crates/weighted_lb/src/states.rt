//! The states of localities and priorities.
ghost use Rattle.std.specs.Prelude.{◌≡◌};
ghost use Rattle.std.specs.List.{list_any};
ghost use Rattle.weighted_lb.specs.States.{is_ready, is_connecting, joined};

use xc_base::State;

/// The state of a locality from those of its endpoints: READY where one is, else CONNECTING where one
/// is, else failing. It takes no memory.
pub fn locality_state(states: &[State]) -> State
    ensures { result ≡ joined states.now }
{
    if any_ready(states) {
        State::Ready
    } else if any_connecting(states) {
        State::Connecting
    } else {
        State::Failing
    }
}

/// The state of a priority from those of its localities, in the same way. It takes no memory.
pub fn weighted_state(states: &[State]) -> State
    ensures { result ≡ joined states.now }
{
    locality_state(states)
}

/// Whether one of the states is READY.
fn any_ready(states: &[State]) -> bool
    ensures { result ≡ list_any is_ready states.now }
{
    states.iter().any(|state| is_ready(*state))
}

/// Whether one of the states is CONNECTING.
fn any_connecting(states: &[State]) -> bool
    ensures { result ≡ list_any is_connecting states.now }
{
    states.iter().any(|state| is_connecting(*state))
}

/// Whether the state is READY.
fn is_ready(state: State) -> bool
    ensures { result ≡ is_ready state }
{
    matches!(state, State::Ready)
}

/// Whether the state is CONNECTING.
fn is_connecting(state: State) -> bool
    ensures { result ≡ is_connecting state }
{
    matches!(state, State::Connecting)
}
