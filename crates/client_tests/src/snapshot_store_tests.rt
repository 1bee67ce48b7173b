//! Values of an archive.
use snapshot_store::{Archive, History};
use std::test::Fail;
use xc_base::{List, Shared};

#[test]
fn a_ticket_reads_its_value(rt: HostRuntime) -> Result<(), Fail> {
    let archive = Shared::new(rt.alloc(), Archive::new(rt.alloc())?)?;
    let first = archive.get().push(&rt, 7u32).map_err(|_| "no memory")?;
    let second = archive.get().push(&rt, 8u32).map_err(|_| "no memory")?;
    assert_eq!(rt; *archive.get().read(&first), 7);
    assert!(rt; archive.get().same(&first, &first.copy()?));
    assert!(rt; !archive.get().same(&first, &second));
    let mut tickets = List::new(rt.alloc());
    tickets.push(second)?;
    let history = History { archive, tickets };
    assert_eq!(rt; *history.at(0), 8);
    Ok(())
}
