//! One stream: a first request, an ACK and a NACK.
use crate::text_lists::{node, texts};
use ads_stream::{Names, Stream, Verdict};
use std::alloc::Global;
use std::test::Fail;
use xc_base::{Kind, List, Memory, Shared, Text};

/// A listener and nothing else.
fn names(alloc: Global) -> Result<Names, Memory> {
    Ok(Names {
        listener: Shared::new(alloc, texts(alloc, &["svc"])?)?,
        route: Shared::new(alloc, List::new(alloc))?,
        cluster: Shared::new(alloc, List::new(alloc))?,
        endpoint: Shared::new(alloc, List::new(alloc))?,
    })
}

/// Whether one request is due, of this version and nonce.
fn sends(stream: &mut Stream, names: &Names, version: &str, nonce: &str) -> Result<bool, Memory> {
    let requests = stream.names(names)?;
    match requests.as_slice() {
        [request] => Ok(request.version.as_str() == version && request.nonce.as_str() == nonce),
        _ => Ok(false),
    }
}

#[test]
fn a_refusal_keeps_the_version(rt: HostRuntime) -> Result<(), Fail> {
    let alloc = rt.alloc();
    let names = names(alloc)?;
    let mut stream = Stream::new(alloc, node());
    stream.opened();
    assert!(rt; sends(&mut stream, &names, "", "")?);
    let one = Text::from_str(alloc, "1")?;
    let two = Text::from_str(alloc, "2")?;
    let ack = stream.response(Kind::Listener, &one, &one, None)?;
    assert!(rt; ack == Verdict::Ack(Kind::Listener));
    assert!(rt; sends(&mut stream, &names, "1", "1")?);
    let nack = stream.response(Kind::Listener, &two, &two, Some(&one))?;
    assert!(rt; nack == Verdict::Nack(Kind::Listener));
    assert!(rt; sends(&mut stream, &names, "1", "2")?);
    Ok(())
}
