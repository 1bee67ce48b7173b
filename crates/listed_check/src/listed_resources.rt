//! The resources of a response, checked where the refused pattern texts are given.
ghost use Rattle.std.specs.Prelude.{◌≡◌, ◌<◌, ◌^◌, ◌++◌, ℕ, List, length, IfNone, IfOk, IfSome, Result};
ghost use Rattle.check_steps.specs.declared.check_fault.Refusal.{Refusal as Stopping};
ghost use Rattle.resource_check.specs.Answers.{Gives, TellsAll};
ghost use Rattle.resource_check.specs.Deliveries.{AreShort, IsLawfulDelivery, delivery_of, refused_text};
ghost use Rattle.resource_check.specs.Resources.{check_of};
ghost use Rattle.resource_check.specs.declared.resource.Checked.{Checked as CheckedResource};
ghost use Rattle.xds_config.specs.Values as values;
ghost use Rattle.xc_base.specs.declared.names.Kind.{Kind as ResourceKind};
ghost use Rattle.listed_check.specs.ListedAnswers.{AreParts, TellParts, refuses};
ghost use Rattle.listed_check.specs.ListedTexts.{RefusesThese};

use crate::listed_texts::refuse_all;
use crate::stop_texts::{add_once, reason_and_text};
use check_steps::{Asked, Halt};
use header_match::Patterns;
use proto_discovery::AnyValue;
use resource_check::preparation::apart;
use resource_check::{Checked, Delivery, check_or_halt};
use std::alloc::{AllocError, Global};
use std::collections::BTreeSet;
use xc_base::{Kind, List, Memory, Same, Text};

/// What a resource delivers, with the pattern text at which its checks stop, if they stop at one.
#[derive(Drop)]
struct Stopped {
    part: Delivery,
    text: Option<Text>,
}

/// What the resources of a response come to where these texts are refused.
#[derive(Drop)]
pub enum ListedParts {
    /// What they deliver. Their checks stop at exactly these texts.
    Delivered(List<Delivery>),
    /// Their checks stop at other texts than these, or in another order.
    OtherTexts,
    /// The builder refused a text that isn't one of these.
    Unbuilt,
}

// ---- one resource

/// What a resource delivers whose check answers so.
fn stopped_of(answer: Result<Checked, Halt>) -> Result<Stopped, Memory>
    ensures part { IfOk result (λ stopped. (step : Result CheckedResource Stopping) → Gives answer step → stopped.part ≡ delivery_of step) }
    ensures text { IfOk result (λ stopped. (step : Result CheckedResource Stopping) → Gives answer step → stopped.text ≡ refused_text step) }
    ensures told { IfOk result (λ _. (told : List (List ℕ)) (tells : List (List ℕ)) (gained : List (List ℕ)) → TellsAll answer told tells gained → tells ≡ told ++ gained) }
    ensures lawful { IfOk result (λ stopped. (kind : ResourceKind) → IfOk answer (λ checked. values.IsLawfulValue checked.value × (values.kind_of checked.value ≡ kind)) → IsLawfulDelivery kind stopped.part) }
{
    match answer {
        Ok(checked) => Ok(Stopped {
            part: Delivery {
                name: Some(checked.name),
                result: Ok(checked.value),
            },
            text: None,
        }),
        Err(Halt::Refused(refusal)) => {
            let (reason, text) = reason_and_text(refusal.stop);
            Ok(Stopped {
                part: Delivery {
                    name: refusal.name,
                    result: Err(reason),
                },
                text,
            })
        }
        Err(Halt::Memory) => Err(AllocError),
    }
}

/// Checks a resource of the kind. There is none where the builder refuses a text: it isn't one that was refused before.
fn check_listed<P: Patterns>(
    alloc: Global,
    kind: Kind,
    any: &AnyValue,
    asked: &mut Asked,
    patterns: &mut P,
) -> Result<Option<Stopped>, Memory>
    requires short { length any.now.value < 2 ^ 32 }
    ensures part { IfOk result (λ found. IfSome found (λ stopped. (listed : List (List ℕ)) → RefusesThese asked.old listed → stopped.part ≡ delivery_of (check_of (refuses listed) kind any.now))) }
    ensures text { IfOk result (λ found. IfSome found (λ stopped. (listed : List (List ℕ)) → RefusesThese asked.old listed → stopped.text ≡ refused_text (check_of (refuses listed) kind any.now))) }
    ensures refused { IfOk result (λ found. IfSome found (λ _. asked.new.refused ≡ asked.old.refused)) }
    ensures told { IfOk result (λ found. IfSome found (λ _. P.refused patterns.new ≡ P.refused patterns.old)) }
    ensures unbuilt { IfOk result (λ found. IfNone found (length (P.refused patterns.old) < length (P.refused patterns.new))) }
    ensures lawful { IfOk result (λ found. IfSome found (λ stopped. IsLawfulDelivery kind stopped.part)) }
{
    let before = asked.refused().len();
    let stopped = stopped_of(check_or_halt(alloc, kind, any, asked, patterns))?;
    asked.agree();
    if asked.refused().len() != before {
        return Ok(None);
    }
    Ok(Some(stopped))
}

// ---- the resources of a response

/// Checks the resources of a response of the kind, one after another.
fn check_resources<P: Patterns>(
    alloc: Global,
    kind: Kind,
    resources: &[AnyValue],
    listed: &List<Text>,
    patterns: &mut P,
) -> Result<ListedParts, Memory>
    requires short { AreShort resources.now }
    ensures parts { IfOk result (AreParts listed.now (Some kind) resources.now) }
    ensures told { IfOk result (TellParts (P.refused patterns.old) (P.refused patterns.new)) }
{
    let mut asked = refuse_all(alloc, listed.as_slice())?;
    let mut names = BTreeSet::new(alloc);
    let mut seen = BTreeSet::new(alloc);
    let mut stops = List::new(alloc);
    let mut parts = List::new(alloc);
    for resource in resources {
        let Some(stopped) = check_listed(alloc, kind, resource, &mut asked, patterns)? else {
            return Ok(ListedParts::Unbuilt);
        };
        let part = apart(&mut names, stopped.part)?;
        add_once(&mut stops, &mut seen, stopped.text)?;
        parts.push(part)?;
    }
    if stops.same(listed) {
        Ok(ListedParts::Delivered(parts))
    } else {
        Ok(ListedParts::OtherTexts)
    }
}

/// Checks the resources of a response, of which those of a type that is none of the four kinds aren't checked.
pub fn check_of_kind<P: Patterns>(
    alloc: Global,
    kind: Option<Kind>,
    resources: &[AnyValue],
    listed: &List<Text>,
    patterns: &mut P,
) -> Result<ListedParts, Memory>
    requires short { AreShort resources.now }
    ensures parts { IfOk result (AreParts listed.now kind resources.now) }
    ensures told { IfOk result (TellParts (P.refused patterns.old) (P.refused patterns.new)) }
{
    match kind {
        Some(kind) => check_resources(alloc, kind, resources, listed, patterns),
        None if listed.is_empty() => Ok(ListedParts::Delivered(List::new(alloc))),
        None => Ok(ListedParts::OtherTexts),
    }
}
