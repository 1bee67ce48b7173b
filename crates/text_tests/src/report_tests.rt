//! The texts of an entry and of a last line.
use call_journal::{CallerEvent, CallerReply, Entry, What};
use report_text::{push_end_line, push_entry};
use std::test::Fail;
use xc_base::{CallId, List, Node, Text};
use xds_bootstrap::Bootstrap;

/// A node without names.
fn node() -> Node {
    Node {
        id: Text::new(),
        cluster: Text::new(),
        region: Text::new(),
        zone: Text::new(),
        sub_zone: Text::new(),
    }
}

/// A commit of a call that holds nothing.
fn commit() -> Entry {
    Entry {
        actor: 1,
        line: 6,
        what: What::Caller {
            event: CallerEvent::Commit(CallId(0)),
            reply: CallerReply::NotHeld,
        },
    }
}

#[test]
fn an_entry_has_its_line(rt: HostRuntime) -> Result<(), Fail> {
    let boot = Bootstrap {
        authorities: List::new(rt.alloc()),
        node: node(),
    };
    let mut text = String::new(rt.alloc());
    push_entry(&mut text, &boot, None, None, 2, &commit())?;
    assert!(rt; text.as_str() == "2 6 c1 commit 0 notheld\n");
    Ok(())
}

#[test]
fn a_report_has_a_last_line(rt: HostRuntime) {
    let mut text = String::new(rt.alloc());
    assert!(rt; push_end_line(&mut text, 13, 2).is_ok());
}
