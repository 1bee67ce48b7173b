//! Picks of a priority.
ghost use Rattle.std.specs.Prelude.{◌≡◌, ◌<◌, ◌∷◌, [], length, All, IfOk};
ghost use Rattle.weighted_lb.specs.Pick.{weights_of, IsMade};

use std::alloc::Global;
use std::test::Fail;
use weight_pick::{DropRule, Fraction};
use weighted_lb::{Chosen, Part, Picker, choose, copy_rules, make_picker};
use xc_base::{List, Text, address};

fn part(alloc: Global, locality: u32, weight: u32) -> Result<Part, Fail>
    ensures weight { IfOk result (λ part. part.weight ≡ weight) }
    ensures ready { IfOk result (λ part. length part.ready ≡ 1) }
{
    let mut ready = List::new(alloc);
    ready.push(address(alloc, "10.0.0.1:80")?)?;
    Ok(Part {
        locality,
        weight,
        ready,
    })
}

/// A locality of weight 1 before one that has nearly all of it.
fn parts(alloc: Global) -> Result<List<Part>, Fail>
    ensures weights { IfOk result (λ parts. weights_of parts ≡ 1 ∷ 4294967294 ∷ []) }
    ensures ready { IfOk result (λ parts. All (λ part. 0 < length part.ready) parts) }
    ensures count { IfOk result (λ parts. length parts ≡ 2) }
{
    let mut parts = List::new(alloc);
    parts.push(part(alloc, 0, 1)?)?;
    parts.push(part(alloc, 1, 4_294_967_294)?)?;
    Ok(parts)
}

/// Half of the calls are dropped.
fn rules(alloc: Global) -> Result<List<DropRule>, Fail>
    ensures { IfOk result (λ rules. length rules ≡ 1) }
{
    let mut rules = List::new(alloc);
    rules.push(DropRule {
        category: Text::from_str(alloc, "shed")?,
        fraction: Fraction { n: 50, of: 100 },
    })?;
    Ok(rules)
}

fn picker(alloc: Global) -> Result<Picker, Fail>
    ensures made { IfOk result (λ picker. IsMade picker.body) }
    ensures rules { IfOk result (λ picker. length picker.drops ≡ 1) }
{
    let rules = rules(alloc)?;
    let parts = parts(alloc)?;
    Ok(make_picker(alloc, &rules, parts)?)
}

#[test]
fn drop_rules_come_before_localities_by_weight(rt: HostRuntime) -> Result<(), Fail> {
    let picker = picker(rt.alloc())?;
    assert!(rt; matches!(choose(&picker, 7_046_029_254_386_353_131), Chosen::Drop(1)));
    assert!(rt; matches!(choose(&picker, 0), Chosen::Part(0)));
    Ok(())
}

#[test]
fn rules_are_copied(rt: HostRuntime) -> Result<(), Fail> {
    let rules = rules(rt.alloc())?;
    assert_eq!(rt; copy_rules(rt.alloc(), rules.as_slice())?.len(), 1);
    Ok(())
}
