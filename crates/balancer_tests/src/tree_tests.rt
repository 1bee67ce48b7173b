//! Trees of one cluster.
use crate::tree_configs::config;
use cluster_tree::{NextConfig, Trees, UpdatedViews};
use place_marks::Marks;
use std::collections::BTreeMap;
use std::test::Fail;
use weighted_lb::PickBody;
use xc_base::{Reason, State, Time, address};

/// Whether picks of the one cluster fail since its endpoints aren't there.
fn is_absent(updated: &UpdatedViews) -> bool {
    match updated.views.get(0) {
        Some(Ok(view)) => matches!(
            view.get().view().picker.body,
            PickBody::Fail(Reason::Absent)
        ),
        _ => false,
    }
}

#[test]
fn trees_take_a_configuration_and_reports(rt: HostRuntime) -> Result<(), Fail> {
    let config = config(rt.alloc())?;
    let mut reports = BTreeMap::new(rt.alloc());
    reports.insert(address(rt.alloc(), "10.0.0.1:80")?, State::Ready)?;
    let mut trees = Trees::new(rt.alloc());
    let others = Marks::all(rt.alloc(), 1)?;
    let other = NextConfig {
        config: &config,
        others: &others,
        is_renamed: true,
    };
    let first = trees.update(other, &reports, Time(0), &[])?;
    assert!(rt; is_absent(&first.seen) && matches!(first.seen.changed.places(), [0]));
    assert!(rt; matches!(first.anew.places(), [0]));
    let second = trees.update_states(&reports, Time(1), &[])?;
    assert!(rt; is_absent(&second) && second.changed.are_none());
    let same = NextConfig {
        config: &config,
        others: &others,
        is_renamed: false,
    };
    let third = trees.update(same, &reports, Time(2), &[])?;
    assert!(rt; is_absent(&third.seen) && third.anew.are_none());
    assert!(rt; trees.localities(0)?.is_empty());
    Ok(())
}
