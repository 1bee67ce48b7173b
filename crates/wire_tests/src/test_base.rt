//! Texts, lists, shared values, addresses and streams.
use std::alloc::Global;
use std::test::Fail;
use xc_base::{
    BytesSink, BytesSource, List, Reason, Same, Shared, Sink, Source, StdSink, StdSource, Text,
    address, address_of, draw, read_all, write_all,
};

#[test]
fn texts_are_made(rt: HostRuntime) -> Result<(), Fail> {
    let text = Text::lowercase(rt.alloc(), "AZ-09-É")?;
    let string = format!(in rt.alloc(); "{text}")?;
    assert!(rt; string.as_str() == "az-09-É");
    assert!(rt; Text::from_string(rt.alloc(), string).is_ok());
    assert!(rt; text.clone().is_ok());
    Ok(())
}

#[test]
fn lists_and_shared_values_are_made(rt: HostRuntime) -> Result<(), Fail> {
    let mut list = List::new(rt.alloc());
    assert!(rt; list.push(7u32).is_ok());
    assert!(rt; list.extend_from_slice(&[8, 9]).is_ok());
    assert!(rt; list.clone().is_ok());
    let shared = Shared::new(rt.alloc(), list)?;
    assert!(rt; shared.share().is_ok());
    assert!(rt; shared.clone().is_ok());
    Ok(())
}

#[test]
fn equal_values_are_the_same(rt: HostRuntime) {
    assert!(rt; Some(Text::new()).same(&Some(Text::new())));
    assert!(rt; !Ok::<bool, Reason>(true).same(&Err(Reason::Depth)));
}

/// Whether what the source has left comes to the sink.
fn is_copied<S: Source, K: Sink>(alloc: Global, source: &mut S, sink: &mut K) -> bool {
    match read_all(alloc, source, 5) {
        Ok(bytes) => write_all(sink, &bytes).is_ok(),
        Err(_) => false,
    }
}

#[test]
fn streams_are_read_and_written(rt: HostRuntime) -> Result<(), Fail> {
    let bytes = b"abcdef".to_vec(rt.alloc())?;
    let mut source = BytesSource::new(bytes, 4, Vec::new(rt.alloc()));
    let mut sink = BytesSink::new(rt.alloc(), Vec::new(rt.alloc()));
    assert!(rt; is_copied(rt.alloc(), &mut source, &mut sink));
    assert!(rt; sink.bytes() == b"abcde".as_slice());
    Ok(())
}

#[test]
fn streams_of_std_are_read_and_written(rt: HostRuntime) {
    let mut source = StdSource::new(b"abc".as_slice());
    let mut sink = StdSink::new(Vec::new(rt.alloc()));
    assert!(rt; is_copied(rt.alloc(), &mut source, &mut sink));
}

#[test]
fn addresses_are_made(rt: HostRuntime) -> Result<(), Fail> {
    let read = address(rt.alloc(), "[2001:DB8::A]:443")?;
    let printed = format!(in rt.alloc(); "{read}")?;
    assert!(rt; printed.as_str() == "[2001:db8::a]:443");
    assert!(rt; address_of(rt.alloc(), "2001:db8::a", 443).is_ok());
    Ok(())
}

#[test]
fn draws_are_the_high_half_of_a_sum(rt: HostRuntime) {
    assert!(rt; draw(0, 1) == 2_654_435_769);
    assert!(rt; draw(0, 3) == 3_668_340_012);
}
