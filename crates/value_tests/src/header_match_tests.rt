//! Header rules, and the patterns that `regex` builds.
use header_match::{CountedPatterns, HeaderRule, HeaderTest, Patterns, RegexPatterns, header_met};
use std::test::Fail;
use xc_base::{Call, CallId, Header, List, Text};

#[test]
fn a_header_is_met(rt: HostRuntime) -> Result<(), Fail> {
    let mut headers = List::new(rt.alloc());
    for value in ["a", "b"] {
        let name = Text::from_str(rt.alloc(), "x")?;
        let value = Text::from_str(rt.alloc(), value)?;
        headers.push(Header { name, value })?;
    }
    let call = Call {
        id: CallId(0),
        path: Text::new(),
        headers,
        word: 0,
    };
    let rule = HeaderRule {
        name: Text::from_str(rt.alloc(), "x")?,
        test: HeaderTest::Present(true),
        invert: false,
    };
    assert!(rt; header_met(rt.alloc(), &rule, &call).is_ok());
    Ok(())
}

#[test]
fn patterns_meet_whole_texts(rt: HostRuntime) -> Result<(), Fail> {
    let mut patterns = RegexPatterns::new(rt.alloc());
    let pattern = patterns.build("a+")?.clone()?;
    assert!(rt; pattern.meets("aa")?);
    assert!(rt; !pattern.meets("ab")?);
    assert!(rt; patterns.build("a(").is_err());
    assert!(rt; patterns.build("(?x)a #x").is_err());
    assert!(rt; patterns.refused().len() == 2);
    Ok(())
}

#[test]
fn listed_patterns_are_refused(rt: HostRuntime) -> Result<(), Fail> {
    let mut refusing = List::new(rt.alloc());
    refusing.push(Text::from_str(rt.alloc(), "a+")?)?;
    let mut patterns = CountedPatterns::new(rt.alloc(), refusing);
    assert!(rt; patterns.build("b+").is_ok());
    assert!(rt; patterns.build("a+").is_err());
    Ok(())
}
