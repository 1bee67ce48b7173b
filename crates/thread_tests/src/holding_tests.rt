//! Callers on threads of their own: one is held up while others go on.
use crate::holding_gate::HoldingGate;
use call_journal::Journal;
use header_match::{Pattern, PatternFault, Patterns, RegexPatterns};
use session_input::{generated_input, session_in};
use std::sync::Wait;
use std::test::Fail;
use threaded_player::play_on_threads;

/// Two callers: call 0 of the first starts in line 10, call 1 of the second starts in line 11 and is committed in line 13.
const TWO_CALLERS: &[u8] = b"\
xds-session 1\n\
boot {\"xds_servers\":[{\"server_uri\":\"ms:1\"}],\"node\":{\"id\":\"n\"}}\n\
target xds:///svc\n\
callers 2\n\
d open -\n\
d data - 000000010b0a013112ca010a35747970652e676f6f676c65617069732e636f6d2f656e766f792e636f6e6669672e6c697374656e65722e76332e4c697374656e65721290010a037376639a0187010a84010a65747970652e676f6f676c65617069732e636f6d2f656e766f792e657874656e73696f6e732e66696c746572732e6e6574776f726b2e687474705f636f6e6e656374696f6e5f6d616e616765722e76332e48747470436f6e6e656374696f6e4d616e61676572121b22190a017212140a016812012a1a0c0a030a012f12050a037765622235747970652e676f6f676c65617069732e636f6d2f656e766f792e636f6e6669672e6c697374656e65722e76332e4c697374656e65722a026e31\n\
d data - 00000000820a013112440a33747970652e676f6f676c65617069732e636f6d2f656e766f792e636f6e6669672e636c75737465722e76332e436c7573746572120d0a0377656210031a040a021a002233747970652e676f6f676c65617069732e636f6d2f656e766f792e636f6e6669672e636c75737465722e76332e436c75737465722a026e32\n\
d data - 00000000b70a0131126a0a42747970652e676f6f676c65617069732e636f6d2f656e766f792e636f6e6669672e656e64706f696e742e76332e436c75737465724c6f616441737369676e6d656e7412240a03776562121d0a0312017a12120a100a0e0a0c120831302e302e302e3118501a0208012242747970652e676f6f676c65617069732e636f6d2f656e766f792e636f6e6669672e656e64706f696e742e76332e436c75737465724c6f616441737369676e6d656e742a026e33\n\
d endpoint 10.0.0.1:80 ready\n\
@9 c 1 start 0 0 /p.S/M\n\
@9 c 2 start 1 0 /p.S/M\n\
c 2 pick 1 0\n\
c 2 commit 1\n\
c 1 commit 0\n";

/// A listener with a pattern comes in line 10; call 0 starts in line 11 and is committed in line 13.
const LATE_PATTERN: &[u8] = b"\
xds-session 1\n\
boot {\"xds_servers\":[{\"server_uri\":\"ms:1\"}],\"node\":{\"id\":\"n\"}}\n\
target xds:///svc\n\
callers 1\n\
d open -\n\
d data - 000000010b0a013112ca010a35747970652e676f6f676c65617069732e636f6d2f656e766f792e636f6e6669672e6c697374656e65722e76332e4c697374656e65721290010a037376639a0187010a84010a65747970652e676f6f676c65617069732e636f6d2f656e766f792e657874656e73696f6e732e66696c746572732e6e6574776f726b2e687474705f636f6e6e656374696f6e5f6d616e616765722e76332e48747470436f6e6e656374696f6e4d616e61676572121b22190a017212140a016812012a1a0c0a030a012f12050a037765622235747970652e676f6f676c65617069732e636f6d2f656e766f792e636f6e6669672e6c697374656e65722e76332e4c697374656e65722a026e31\n\
d data - 00000000820a013112440a33747970652e676f6f676c65617069732e636f6d2f656e766f792e636f6e6669672e636c75737465722e76332e436c7573746572120d0a0377656210031a040a021a002233747970652e676f6f676c65617069732e636f6d2f656e766f792e636f6e6669672e636c75737465722e76332e436c75737465722a026e32\n\
d data - 00000000b70a0131126a0a42747970652e676f6f676c65617069732e636f6d2f656e766f792e636f6e6669672e656e64706f696e742e76332e436c75737465724c6f616441737369676e6d656e7412240a03776562121d0a0312017a12120a100a0e0a0c120831302e302e302e3118501a0208012242747970652e676f6f676c65617069732e636f6d2f656e766f792e636f6e6669672e656e64706f696e742e76332e436c75737465724c6f616441737369676e6d656e742a026e33\n\
d endpoint 10.0.0.1:80 ready\n\
d data - 000000010e0a013212cd010a35747970652e676f6f676c65617069732e636f6d2f656e766f792e636f6e6669672e6c697374656e65722e76332e4c697374656e65721293010a037376639a018a010a87010a65747970652e676f6f676c65617069732e636f6d2f656e766f792e657874656e73696f6e732e66696c746572732e6e6574776f726b2e687474705f636f6e6e656374696f6e5f6d616e616765722e76332e48747470436f6e6e656374696f6e4d616e61676572121e221c0a017212170a016812012a1a0f0a0652041202612b12050a037765622235747970652e676f6f676c65617069732e636f6d2f656e766f792e636f6e6669672e6c697374656e65722e76332e4c697374656e65722a026e34\n\
@9 c 1 start 0 0 /p.S/M\n\
c 1 pick 0 0\n\
c 1 commit 0\n";

/// The place of the first entry of a line, from 0.
fn first_of(journal: &Journal, line: u32) -> Option<u32> {
    for place in 0..journal.len() {
        if journal.at(place).line == line {
            return Some(place);
        }
    }
    None
}

/// The place of the last entry of a line, from 0.
fn last_of(journal: &Journal, line: u32) -> Option<u32> {
    let mut found = None;
    for place in 0..journal.len() {
        if journal.at(place).line == line {
            found = Some(place);
        }
    }
    found
}

/// Builds patterns by `regex` once a line has ended.
#[derive(Drop)]
struct LatePatterns<'a, R: Wait> {
    rt: &'a R,
    gate: &'a HoldingGate,
    line: u32,
    waited: bool,
    others: RegexPatterns,
}

impl<R: Wait> Patterns for LatePatterns<'_, R> {
    ghost refused = { λ p. ⟦<RegexPatterns as Patterns>⟧.refused p.others };

    fn build(&mut self, text: &str) -> Result<Pattern, PatternFault> {
        self.waited = self.gate.waits_for(self.rt, self.line);
        self.others.build(text)
    }
}

/// A call holds its cluster after another caller's call was committed, and each line is told once. With a lock that is kept
/// from pin to hold, or all actors on one thread, the call that is held up gives up waiting, and holds first.
#[test]
fn a_call_holds_after_another_commits(rt: HostRuntime) -> Result<(), Fail> {
    let alloc = rt.alloc();
    let session = session_in(alloc, TWO_CALLERS)?;
    let gate = HoldingGate::new(alloc, 0, 13);
    let mut patterns = RegexPatterns::new(alloc);
    let played = play_on_threads(&rt, alloc, &session, &gate, &mut patterns)?;
    assert!(rt; last_of(&played.journal, 10) > last_of(&played.journal, 13));
    assert!(rt; gate.is_told_once(5, 14));
    Ok(())
}

/// A response is checked before the lock is taken: while its pattern is built, a call starts, picks and is committed. With a
/// check under the lock, or all actors on one thread, the pattern is built before, after many turns.
#[test]
fn calls_go_on_while_a_pattern_is_built(rt: HostRuntime) -> Result<(), Fail> {
    let alloc = rt.alloc();
    let session = session_in(alloc, LATE_PATTERN)?;
    let gate = HoldingGate::new(alloc, 65_535, 0);
    let mut patterns = LatePatterns {
        rt: &rt,
        gate: &gate,
        line: 13,
        waited: false,
        others: RegexPatterns::new(alloc),
    };
    let played = play_on_threads(&rt, alloc, &session, &gate, &mut patterns)?;
    assert!(rt; patterns.waited);
    assert!(rt; first_of(&played.journal, 10) > last_of(&played.journal, 13));
    Ok(())
}

/// Of the generated session of 1,000 rounds the gate is told each line once.
#[test]
fn each_line_is_told_once(rt: HostRuntime) -> Result<(), Fail> {
    let alloc = rt.alloc();
    let session = generated_input(alloc, 1_000)?;
    let gate = HoldingGate::new(alloc, 65_535, 0);
    let mut patterns = RegexPatterns::new(alloc);
    let played = play_on_threads(&rt, alloc, &session, &gate, &mut patterns)?;
    assert!(rt; played.journal.len() == 24_012);
    assert!(rt; gate.is_told_once(5, 20_012));
    Ok(())
}
