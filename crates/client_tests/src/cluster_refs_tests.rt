//! A name that is pinned and held.
use crate::text_lists::texts;
use cluster_refs::Refs;
use std::test::Fail;
use xc_base::{CallId, Shared, Text};

#[test]
fn names_are_retained_while_a_pin_or_a_hold_has_them(rt: HostRuntime) -> Result<(), Fail> {
    let alloc = rt.alloc();
    let mut refs = Refs::new(alloc);
    let list = Shared::new(alloc, texts(alloc, &["b", "a"])?)?;
    refs.pin(CallId(0), 1, &list)?;
    refs.hold(CallId(1), &Text::from_str(alloc, "b")?)?;
    assert!(rt; refs.retained()? == texts(alloc, &["a", "b"])?);
    assert!(rt; refs.unpin(CallId(0)));
    assert!(rt; refs.retained()? == texts(alloc, &["b"])?);
    Ok(())
}
