//! A key that is started twice.
use std::alloc::Global;
use std::test::Fail;
use watch_timers::Timers;
use xc_base::{Authority, Home, Key, Kind, Memory, Text, Time};

fn key(alloc: Global) -> Result<Key, Memory> {
    Ok(Key {
        kind: Kind::Cluster,
        name: Text::from_str(alloc, "k")?,
        home: Home::At(Authority::DEFAULT),
    })
}

#[test]
fn a_key_that_runs_keeps_its_time(rt: HostRuntime) -> Result<(), Fail> {
    let key = key(rt.alloc())?;
    let mut timers = Timers::new(rt.alloc());
    timers.start(&key, Time(0))?;
    timers.start(&key, Time(5))?;
    assert_eq!(rt; timers.due(Time(14_999))?.len(), 0);
    assert_eq!(rt; timers.due(Time(15_000))?.len(), 1);
    assert_eq!(rt; timers.due(Time(15_000))?.len(), 0);
    Ok(())
}
