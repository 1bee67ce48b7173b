//! A journal with room for one entry.
use call_journal::{CallerEvent, CallerReply, Entry, Journal, What};
use std::test::Fail;
use xc_base::CallId;

fn commit() -> Entry {
    Entry {
        actor: 1,
        line: 6,
        what: What::Caller {
            event: CallerEvent::Commit(CallId(0)),
            reply: CallerReply::NotHeld,
        },
    }
}

#[test]
fn one_entry_takes_the_room_for_one(rt: HostRuntime) -> Result<(), Fail> {
    let mut journal = Journal::new(rt.alloc(), 1)?;
    assert!(rt; journal.push(commit()).is_ok());
    assert_eq!(rt; journal.spare(), 0);
    journal.reserve(2)?;
    assert!(rt; journal.spare() >= 2);
    Ok(())
}
