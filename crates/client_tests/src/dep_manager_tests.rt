//! A first update, when nothing is known.
ghost use Rattle.std.specs.Prelude.{◌≡◌, ◌<◌, IfOk};
ghost use Rattle.xc_base.specs.declared.names.Kind.TheVariants.{Listener};

use crate::text_lists::node;
use dep_manager::{Deps, Outcome};
use std::alloc::Global;
use std::marker::Brand;
use std::sync::ledger::{Blank, Ledger};
use std::test::Fail;
use xc_base::{Authority, Home, Key, Kind, List, Memory, Steps, Text};
use xds_bootstrap::Bootstrap;
use xds_cache::Cache;
use xds_name::Target;

fn bootstrap(alloc: Global) -> Bootstrap {
    Bootstrap {
        authorities: List::new(alloc),
        node: node(),
    }
}

fn target(alloc: Global) -> Result<Target, Memory>
    ensures { IfOk result (λ target. target.key.kind ≡ Listener) }
{
    let key = Key {
        kind: Kind::Listener,
        name: Text::from_str(alloc, "svc")?,
        home: Home::At(Authority::DEFAULT),
    };
    let host = Text::from_str(alloc, "svc")?;
    Ok(Target { key, host })
}

/// What a first update comes to, whether what it made serves calls that refer to nothing, and what an update in place comes to
/// then.
#[derive(Drop)]
struct FirstUpdates {
    first: Outcome,
    serves: bool,
    next: Option<Outcome>,
}

fn update_counted<L: Ledger>(blank: Blank, alloc: Global) -> Result<FirstUpdates, Memory>
    requires name { blank.name ≡ L.name }
    requires parts { blank.parts ≡ L.parts }
    requires some { 0 < blank.parts }
{
    let mut steps = Steps::<L>::new(blank);
    let mut cache = Cache::new(alloc);
    let mut deps = Deps::new(alloc, target(alloc)?)?;
    let boot = bootstrap(alloc);
    let none = List::new(alloc);
    let first = deps.update(
        alloc,
        &boot,
        &List::new(alloc),
        &none,
        &mut cache,
        &mut steps,
    )?;
    let serves = deps.serves(alloc, &none)?;
    let next = deps.update_in_place(alloc, &List::new(alloc), &cache, &mut steps)?;
    Ok(FirstUpdates {
        first,
        serves,
        next,
    })
}

fn first_updates(alloc: Global) -> Result<FirstUpdates, Memory> {
    update_counted::<Brand>(Blank::new(1), alloc)
}

#[test]
fn the_listener_is_reached_and_awaited_first(rt: HostRuntime) -> Result<(), Fail> {
    let outcome = first_updates(rt.alloc())?.first;
    assert_eq!(rt; outcome.reached.as_slice().len(), 1);
    assert!(rt; outcome.missing.is_some());
    assert!(rt; outcome.config.is_none());
    Ok(())
}

#[test]
fn what_was_made_first_serves_calls_that_refer_to_nothing(rt: HostRuntime) -> Result<(), Fail> {
    let updates = first_updates(rt.alloc())?;
    assert!(rt; updates.serves);
    Ok(())
}
