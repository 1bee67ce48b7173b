//! A switch at a concrete type.
use graceful_switch::{Serves, Switch};
use xc_base::State;

#[derive(Clone, Copy, Drop)]
struct Numbered {
    number: u32,
    state: State,
}

impl Serves for Numbered {
    ghost states = { λ t. t.state };

    fn state(&self) -> State {
        self.state
    }
}

#[test]
fn the_old_one_serves_until_the_new_one_is_ready(rt: HostRuntime) {
    let mut switch = Switch::new(Numbered {
        number: 1,
        state: State::Ready,
    });
    let none = switch.replace(Numbered {
        number: 2,
        state: State::Connecting,
    });
    assert!(rt; none.is_none() && switch.settle().is_none());
    assert_eq!(rt; switch.serving().number, 1);
    if let Some(waiting) = switch.waiting_mut() {
        waiting.state = State::Ready;
    }
    assert!(rt; switch.settle().is_some() && switch.waiting().is_none());
    switch.serving_mut().state = State::Failing;
    assert_eq!(rt; switch.serving().number, 2);
    assert!(rt; switch.back().is_none());
}
