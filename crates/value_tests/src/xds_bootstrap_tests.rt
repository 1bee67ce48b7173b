//! The bootstrap document.
use std::test::Fail;
use xc_base::Authority;
use xds_bootstrap::read;

const DOCUMENT: &str = "{\"xds_servers\":[{\"server_uri\":\"ms:1\"}],\
    \"node\":{\"id\":\"n\",\"id\":\"m\",\"metadata\":1,\"locality\":{\"region\":\"r\"}},\
    \"authorities\":{\"b\":{\"xds_servers\":[]},\
    \"a\":{\"xds_servers\":[{\"server_uri\":\"ms:2\"}]}}}";

#[test]
fn a_bootstrap_is_read(rt: HostRuntime) -> Result<(), Fail> {
    let boot = read(rt.alloc(), DOCUMENT.as_bytes())?;
    assert!(rt; boot.node.id.as_str() == "m");
    assert!(rt; boot.node.region.as_str() == "r");
    assert!(rt; boot.authority("b") == Some(Authority(2)));
    assert!(rt; boot.authorities.len() == 3);
    Ok(())
}
