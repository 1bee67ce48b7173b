//! Names and targets.
use std::test::Fail;
use xc_base::{Kind, Text};
use xds_bootstrap::read;
use xds_name::{canonical, canonical_name, listener_name, name_key, parse_name};

/// A bootstrap with the authority `a.example` and no templates.
const BOOTSTRAP: &[u8] =
    b"{\"xds_servers\":[{\"server_uri\":\"ms:1\"}],\"authorities\":{\"a.example\":{}}}";

const NAME: &str = "xdstp://a/T/i?b=2&a=1";

#[test]
fn a_name_has_a_canonical_text(rt: HostRuntime) -> Result<(), Fail> {
    let name = Text::from_str(rt.alloc(), NAME)?;
    assert!(rt; canonical(rt.alloc(), NAME).is_ok());
    assert!(rt; canonical_name(rt.alloc(), &name).is_ok());
    Ok(())
}

#[test]
fn names_and_targets_have_keys(rt: HostRuntime) -> Result<(), Fail> {
    let boot = read(rt.alloc(), BOOTSTRAP)?;
    let name = Text::from_str(rt.alloc(), NAME)?;
    assert!(rt; parse_name(rt.alloc(), &boot, Kind::Listener, NAME).is_ok());
    assert!(rt; name_key(rt.alloc(), &boot, Kind::Listener, &name).is_ok());
    assert!(rt; listener_name(rt.alloc(), &boot, "xds://a.example/x[1]").is_ok());
    Ok(())
}
