//! Values of resources, and the configuration: each is copied.
use std::alloc::Global;
use std::test::Fail;
use xc_base::{List, Memory, Reason, Shared, Text};
use xds_config::{Front, Leaf, LocalityId, RouteValue, Value};

fn routes(alloc: Global) -> Result<Shared<RouteValue>, Memory> {
    let name = Text::from_str(alloc, "r")?;
    let hosts = List::new(alloc);
    Ok(Shared::new(alloc, RouteValue { name, hosts })?)
}

#[test]
fn a_front_is_copied(rt: HostRuntime) -> Result<(), Fail> {
    let front = Front {
        listener: Text::new(),
        routes: routes(rt.alloc())?,
        host: 1,
    };
    assert!(rt; front.clone().is_ok());
    Ok(())
}

#[test]
fn a_value_is_copied(rt: HostRuntime) -> Result<(), Fail> {
    let value = Value::Route(routes(rt.alloc())?);
    assert!(rt; value.clone().is_ok());
    Ok(())
}

#[test]
fn a_leaf_and_a_locality_are_copied(rt: HostRuntime) {
    let leaf = Leaf {
        name: Text::new(),
        state: Err(Reason::Absent),
    };
    assert!(rt; leaf.clone().is_ok());
    let id = LocalityId {
        region: Text::new(),
        zone: Text::new(),
        sub_zone: Text::new(),
    };
    assert!(rt; id.clone().is_ok());
}
