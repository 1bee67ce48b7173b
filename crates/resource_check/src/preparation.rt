//! Responses that are read and checked before any state is looked at (Envoy's xDS transport).
ghost use Rattle.std.specs.Prelude.{◌≡◌, ◌<◌, ◌^◌, ◌++◌, ◌||◌, ℕ, List, Bool, false, length, All, IfOk, IfSome, OnOk, Result};
ghost use Rattle.std.specs.Option.{option_map_or};
ghost use Rattle.std.specs.Result.{result_ok};
ghost use Rattle.proto_discovery.specs.Response.{response_of};
ghost use Rattle.check_steps.specs.Asking.{Agrees, Asks};
ghost use Rattle.check_steps.specs.Sets.{has};
ghost use Rattle.check_steps.specs.declared.check_fault.Refusal.{Refusal as Stopping};
ghost use Rattle.resource_check.specs.Answers.{Gives, TellsAll, halt_text, new_text};
ghost use Rattle.resource_check.specs.Deliveries.{AreLawfulIn, AreShort, IsLawfulDelivery, IsLawfulReading, IsPrepared, among, apart_where, deliveries_of, delivery_of, is_name, parts_in, reading_with, refused_text, stops_in, stops_of, stops_with};
ghost use Rattle.resource_check.specs.Resources.{check_of};
ghost use Rattle.resource_check.specs.declared.resource.Checked.{Checked as CheckedResource};
ghost use Rattle.xds_config.specs.Values as values;
ghost use Rattle.xc_base.specs.declared.names.Kind.{Kind as ResourceKind};

use crate::checks::{check_or_halt, reason};
use crate::delivery::{Delivery, Prepared, Reading};
use crate::resource::Checked;
use check_steps::{Asked, Halt};
use header_match::Patterns;
use proto_discovery::{AnyValue, Response, kind_of, read_response};
use proto_wire::WireFault;
use std::alloc::{AllocError, Global};
use std::collections::BTreeSet;
use xc_base::{Kind, List, Memory, Reason, Shared, Text};

/// The resources of a response, with the pattern texts that were refused when they were checked.
#[derive(Drop)]
struct Deliveries {
    parts: List<Delivery>,
    refused: List<Text>,
}

// ---- one resource

/// What a resource delivers whose check answers so.
fn delivery_of(answer: Result<Checked, Halt>) -> Result<Delivery, Memory>
    ensures part { IfOk result (λ part. (step : Result CheckedResource Stopping) → Gives answer step → part ≡ delivery_of step) }
    ensures text { IfOk result (λ _. (step : Result CheckedResource Stopping) → Gives answer step → halt_text answer ≡ refused_text step) }
    ensures told { IfOk result (λ _. (told : List (List ℕ)) (tells : List (List ℕ)) (gained : List (List ℕ)) → TellsAll answer told tells gained → tells ≡ told ++ gained) }
    ensures lawful { IfOk result (λ part. (kind : ResourceKind) → IfOk answer (λ checked. values.IsLawfulValue checked.value × (values.kind_of checked.value ≡ kind)) → IsLawfulDelivery kind part) }
{
    match answer {
        Ok(checked) => Ok(Delivery {
            name: Some(checked.name),
            result: Ok(checked.value),
        }),
        Err(Halt::Refused(refusal)) => Ok(Delivery {
            name: refusal.name,
            result: Err(reason(refusal.stop)),
        }),
        Err(Halt::Memory) => Err(AllocError),
    }
}

/// Checks a resource of the kind.
pub fn check_resource<P: Patterns>(
    alloc: Global,
    kind: Kind,
    any: &AnyValue,
    asked: &mut Asked,
    patterns: &mut P,
) -> Result<Delivery, Memory>
    requires short { length any.now.value < 2 ^ 32 }
    ensures part { IfOk result (λ part. (refuses : List ℕ → Bool) → Agrees refuses asked.new → part ≡ delivery_of (check_of refuses kind any.now)) }
    ensures gains { OnOk result ((refuses : List ℕ → Bool) → Agrees refuses asked.new → asked.new.refused ≡ asked.old.refused ++ new_text asked.old.refused (refused_text (check_of refuses kind any.now))) }
    ensures told { OnOk result ((told : List (List ℕ)) → P.refused patterns.old ≡ told ++ asked.old.refused → P.refused patterns.new ≡ told ++ asked.new.refused) }
    ensures asked { Asks asked.old asked.new (P.refused patterns.old) (P.refused patterns.new) }
    ensures lawful { IfOk result (IsLawfulDelivery kind) }
{
    let part = delivery_of(check_or_halt(alloc, kind, any, asked, patterns))?;
    Ok(part)
}

/// Whether the name came before. It has come from then on.
fn has_come(names: &mut BTreeSet<Text>, name: &Option<Text>) -> Result<bool, Memory>
    ensures second { IfOk result (λ second. second ≡ option_map_or (has names.old) name.now false) }
    ensures names { OnOk result ((other : List ℕ) → has names.new other ≡ (is_name name.now other || has names.old other)) }
{
    match name {
        Some(name) => {
            let is_new = names.insert(name.clone()?)?;
            Ok(!is_new)
        }
        None => Ok(false),
    }
}

/// The resource, which is refused where its name came before.
pub fn apart(names: &mut BTreeSet<Text>, part: Delivery) -> Result<Delivery, Memory>
    ensures part { IfOk result (λ apart. apart ≡ apart_where (has names.old) part) }
    ensures names { OnOk result ((other : List ℕ) → has names.new other ≡ (is_name part.name other || has names.old other)) }
    ensures lawful { IfOk result (λ apart. (kind : ResourceKind) → IsLawfulDelivery kind part → IsLawfulDelivery kind apart) }
{
    if has_come(names, &part.name)? {
        return Ok(Delivery {
            name: part.name,
            result: Err(Reason::Second),
        });
    }
    Ok(part)
}

// ---- the resources of a response

/// Checks the resources of a response of the kind, one after another.
fn check_resources<P: Patterns>(
    alloc: Global,
    kind: Kind,
    resources: &[AnyValue],
    patterns: &mut P,
) -> Result<Deliveries, Memory>
    requires short { AreShort resources.now }
    ensures parts { IfOk result (λ all. all.parts ≡ deliveries_of (λ text. among text all.refused) kind resources.now) }
    ensures refused { IfOk result (λ all. all.refused ≡ stops_of (λ text. among text all.refused) kind resources.now) }
    ensures told { IfOk result (λ all. P.refused patterns.new ≡ P.refused patterns.old ++ all.refused) }
    ensures lawful { IfOk result (λ all. All (IsLawfulDelivery kind) all.parts) }
{
    let mut asked = Asked::new(alloc);
    let mut names = BTreeSet::new(alloc);
    let mut parts = List::new(alloc);
    for resource in resources {
        let delivery = check_resource(alloc, kind, resource, &mut asked, patterns)?;
        let part = apart(&mut names, delivery)?;
        parts.push(part)?;
    }
    asked.agree();
    Ok(Deliveries {
        parts,
        refused: asked.into_refused(),
    })
}

/// Checks the resources of a response, of which those of a type that is none of the four kinds aren't checked.
fn check_of_kind<P: Patterns>(
    alloc: Global,
    kind: Option<Kind>,
    resources: &[AnyValue],
    patterns: &mut P,
) -> Result<Deliveries, Memory>
    requires short { AreShort resources.now }
    ensures parts { IfOk result (λ all. all.parts ≡ parts_in (λ text. among text all.refused) kind resources.now) }
    ensures refused { IfOk result (λ all. all.refused ≡ stops_in (λ text. among text all.refused) kind resources.now) }
    ensures told { IfOk result (λ all. P.refused patterns.new ≡ P.refused patterns.old ++ all.refused) }
    ensures lawful { IfOk result (λ all. AreLawfulIn kind all.parts) }
{
    match kind {
        Some(kind) => check_resources(alloc, kind, resources, patterns),
        None => Ok(Deliveries {
            parts: List::new(alloc),
            refused: List::new(alloc),
        }),
    }
}

// ---- payloads

/// The response that the payload is, if it can be read.
#[tactic(auto, using(crate::proofs::DeliveryLemmas::all_short))]
pub fn response(alloc: Global, payload: &[u8]) -> Result<Option<Response>, Memory>
    requires { length payload.now < 2 ^ 32 }
    ensures reading { IfOk result (λ response. response ≡ result_ok (response_of payload.now)) }
    ensures short { IfOk result (λ response. IfSome response (λ r. AreShort r.resources)) }
{
    match read_response(alloc, payload) {
        Ok(response) => Ok(Some(response)),
        Err(WireFault::At(_)) => Ok(None),
        Err(WireFault::Memory) => Err(AllocError),
    }
}

/// Reads the payload of a response and checks its resources, without any state of the channel: the second resource of
/// a name is refused as such, and each pattern text is asked of `patterns` at most once. What `patterns` refuses in
/// this call are the texts of `refused`, in their order, and no other. It fails only where memory runs out.
pub fn prepare<P: Patterns>(
    alloc: Global,
    payload: Shared<List<u8>>,
    patterns: &mut P,
) -> Result<Prepared, Memory>
    requires { length payload < 2 ^ 32 }
    ensures payload { IfOk result (λ prepared. prepared.payload ≡ payload) }
    ensures prepared { IfOk result IsPrepared }
    ensures told { IfOk result (λ prepared. P.refused patterns.new ≡ P.refused patterns.old ++ prepared.refused) }
{
    let Some(response) = response(alloc, payload.get().as_slice())? else {
        return Ok(Prepared {
            payload,
            reading: Reading::Unreadable,
            refused: List::new(alloc),
        });
    };
    let kind = kind_of(response.type_url.as_str());
    let Deliveries { parts, refused } = check_of_kind(
        alloc,
        kind,
        response.resources.as_slice(),
        patterns,
    )?;
    Ok(Prepared {
        payload,
        reading: Reading::Read {
            kind,
            version: response.version,
            nonce: response.nonce,
            parts,
        },
        refused,
    })
}
