//! A value that stays when a later resource is refused.
ghost use Rattle.std.specs.Prelude.{◌≡◌, IfOk};
ghost use Rattle.xc_base.specs.declared.names.Kind.TheVariants.{Cluster};
ghost use Rattle.xds_config.specs.Values.{IsLawfulValue, kind_of};

use std::alloc::Global;
use std::test::Fail;
use xc_base::{Authority, Home, Key, Kind, Reason, Shared, Text};
use xds_cache::Cache;
use xds_config::{ClusterValue, Shape, Value};

fn key(alloc: Global) -> Result<Key, Fail>
    ensures { IfOk result (λ key. key.kind ≡ Cluster) }
{
    Ok(Key {
        kind: Kind::Cluster,
        name: Text::from_str(alloc, "c")?,
        home: Home::At(Authority::DEFAULT),
    })
}

fn value(alloc: Global, name: &str) -> Result<Value, Fail>
    ensures { IfOk result (λ value. IsLawfulValue value × (kind_of value ≡ Cluster)) }
{
    if name.is_empty() {
        return Err(Fail::from("a cluster has a name"));
    }
    let name = Text::from_str(alloc, name)?;
    let service = Text::from_str(alloc, "s")?;
    let value = ClusterValue {
        name,
        shape: Shape::Eds { service },
    };
    Ok(Value::Cluster(Shared::new(alloc, value)?))
}

#[test]
fn watched_keys_take_in_what_comes(rt: HostRuntime) -> Result<(), Fail> {
    let key = key(rt.alloc())?;
    let mut cache = Cache::new(rt.alloc());
    cache.watch(&key)?;
    cache.accept(&key, value(rt.alloc(), "c")?)?;
    cache.refuse(&key, Reason::LbPolicy)?;
    Ok(())
}
