//! Children of a priority balancer.
use priority_lb::Children;
use std::test::Fail;
use xc_base::{State, Time};

const CONNECTING: [State; 2] = [State::Connecting, State::Connecting];

#[test]
fn children_are_carried_and_fail_over(rt: HostRuntime) -> Result<(), Fail> {
    let mut children = Children::new(rt.alloc(), 2)?;
    assert_eq!(rt; children.update(&CONNECTING, Time(9_999)), 0);
    let carried = children.carried(&[None, Some(0)])?;
    assert!(rt; !carried.view(0).there && carried.view(1).pending);
    assert_eq!(rt; children.update(&CONNECTING, Time(19_999)), 1);
    Ok(())
}
