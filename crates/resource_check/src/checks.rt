//! The check of a resource (gRFC A27, Envoy's xDS transport).
ghost use Rattle.std.specs.Prelude.{◌≡◌, ◌≢◌, ◌<◌, ◌^◌, ◌++◌, [], length, Result, Ok, IfOk, IfSome};
ghost use Rattle.proto_discovery.specs.Wrapper.{unwrapped};
ghost use Rattle.resource_check.specs.Answers.{Answers, AnswersOver, Gives, GivesOver, TellsAll, fault_of, halt_ending, halt_text, halt_under, new_text};
ghost use Rattle.check_steps.specs.Asking.{Asks, AsksUntil, TellsOver, ending, refusing};
ghost use Rattle.resource_check.specs.Resources.{check_of, found_of, given_name, message_of, name_of, raw_kind, reason_of, under, value_of};
ghost use Rattle.check_steps.specs.TableSteps.{Tells, readable};
ghost use Rattle.check_steps.specs.declared.check_fault.Refusal.{Refusal as Stopping};
ghost use Rattle.check_steps.specs.declared.check_fault.Stop.{Stop as StopAt};
ghost use Rattle.xds_config.specs.Values.{IsLawfulValue, kind_of};

use crate::raw::{Found, Raw, read_raw};
use crate::resource::Checked;
use check_clusters::assignment_check::check_assignment;
use check_clusters::cluster_check::check_cluster;
use check_routes::host_check::check_routes;
use check_routes::listener_check::check_listener;
use check_steps::asked::Asked;
use check_steps::check_fault::{CheckFault, Fault, Halt, Refusal, Stop};
use check_steps::resource_names::required_name;
use check_steps::table_steps::demand;
use header_match::Patterns;
use proto_discovery::{AnyValue, Unwrapped, type_url, unwrap_resource};
use proto_wire::WireFault;
use std::alloc::Global;
use xc_base::{Kind, Memory, Reason, Shared, Text};
use xds_config::Value;
use xds_name::canonical;

// ---- refusals

/// The reason of a step at which checks stop: a pattern that is refused is a bad one.
pub(crate) fn reason(stop: Stop) -> Reason
    ensures { result ≡ reason_of stop }
{
    match stop {
        Stop::Because(reason) => reason,
        Stop::Refused(_) => Reason::BadPattern,
    }
}

fn halt_under(name: Option<Text>, fault: Fault) -> Halt
    ensures { result ≡ halt_under name fault }
{
    match fault {
        Fault::Stopped(stop) => Halt::Refused(Refusal { name, stop }),
        Fault::Memory => Halt::Memory,
    }
}

/// What a step answers, at which the resource has this name.
fn under<T: Drop>(name: Option<Text>, answer: Result<T, Fault>) -> Result<T, Halt>
    ensures answers { (step : Result T StopAt) → Tells answer step → Gives result (under name step) }
    ensures given { IfOk result (λ value. answer ≡ Ok value) }
    ensures ending { halt_ending result ≡ ending answer }
{
    match answer {
        Ok(value) => Ok(value),
        Err(fault) => Err(halt_under(name, fault)),
    }
}

/// A refusal with its reason alone.
fn fault_of(halt: Halt) -> CheckFault
    ensures { result ≡ fault_of halt }
{
    match halt {
        Halt::Refused(Refusal { name, stop }) => CheckFault::Refused {
            name,
            reason: reason(stop),
        },
        Halt::Memory => CheckFault::Memory,
    }
}

/// An answer with the reason of a refusal alone.
fn with_reason<T: Drop>(answer: Result<T, Halt>) -> Result<T, CheckFault>
    ensures answers { (step : Result T Stopping) → Gives answer step → Answers result step }
    ensures given { IfOk result (λ value. answer ≡ Ok value) }
{
    match answer {
        Ok(value) => Ok(value),
        Err(halt) => Err(fault_of(halt)),
    }
}

// ---- the resource, with its name

/// The resource without its wrapper.
fn inner_resource(alloc: Global, any: &AnyValue) -> Result<Unwrapped, Fault>
    requires { length any.now.value < 2 ^ 32 }
    ensures { Tells result (readable (unwrapped any.now)) }
{
    match unwrap_resource(alloc, any) {
        Ok(resource) => Ok(resource),
        Err(WireFault::At(_)) => Err(Fault::because(Reason::Unreadable)),
        Err(WireFault::Memory) => Err(Fault::Memory),
    }
}

/// The name that a wrapper gives, where it isn't empty.
fn given_name(alloc: Global, name: &Option<Text>) -> Result<Option<Text>, Memory>
    ensures name { IfOk result (λ given. given ≡ given_name name.now) }
    ensures some { IfOk result (λ given. IfSome given (λ n. n ≢ [])) }
{
    match name {
        Some(name) if !name.is_empty() => {
            let name = canonical(alloc, name.as_str())?;
            Ok(Some(name))
        }
        _ => Ok(None),
    }
}

/// A copy of the name, which shares its bytes.
fn copy_of(name: &Option<Text>) -> Result<Option<Text>, Memory>
    ensures { IfOk result (λ copy. copy ≡ name.now) }
{
    match name {
        Some(name) => Ok(Some(name.clone()?)),
        None => Ok(None),
    }
}

/// The message of a resource that has the type of the kind.
#[tactic(auto, unfolding(crate::specs::Resources::message_of))]
fn message(alloc: Global, kind: Kind, any: &AnyValue) -> Result<Raw, Fault>
    ensures value { Tells result (message_of kind any.now) }
    ensures kind { IfOk result (λ raw. raw_kind raw ≡ kind) }
{
    demand(any.type_url.as_str() == type_url(kind), Reason::WrongType)?;
    read_raw(alloc, kind, any.value.as_slice())
}

/// The name of a resource: that of its wrapper, else its own, which isn't empty.
fn name_of(alloc: Global, given: Option<Text>, raw: &Raw) -> Result<Text, Fault>
    ensures value { Tells result (name_of given raw.now) }
    ensures some { IfSome given (λ n. n ≢ []) → IfOk result (λ n. n ≢ []) }
{
    match given {
        Some(name) => Ok(name),
        None => required_name(alloc, raw.own_name()),
    }
}

/// A resource that is read, with its name.
#[tactic(auto, unfolding(crate::specs::Resources::found_of))]
fn read_resource(alloc: Global, kind: Kind, any: &AnyValue) -> Result<Found, Halt>
    requires { length any.now.value < 2 ^ 32 }
    ensures value { Gives result (found_of kind any.now) }
    ensures name { IfOk result (λ found. found.name ≢ []) }
    ensures kind { IfOk result (λ found. raw_kind found.raw ≡ kind) }
{
    let resource = under(None, inner_resource(alloc, any))?;
    let given = given_name(alloc, &resource.name)?;
    let shown = copy_of(&given)?;
    let raw = under(shown, message(alloc, kind, &resource.inner))?;
    let name = under(None, name_of(alloc, given, &raw))?;
    Ok(Found { name, raw })
}

// ---- the value

/// The value of a resource under this name.
fn value<P: Patterns>(
    alloc: Global,
    asked: &mut Asked,
    patterns: &mut P,
    name: &Text,
    raw: &Raw,
) -> Result<Value, Fault>
    ensures value { TellsOver asked.new result (λ refuses. value_of refuses name.now raw.now) }
    ensures asked { AsksUntil asked.old asked.new (P.refused patterns.old) (P.refused patterns.new) (ending result) }
    ensures lawful { name.now ≢ [] → IfOk result IsLawfulValue }
    ensures kind { IfOk result (λ v. kind_of v ≡ raw_kind raw.now) }
{
    match raw {
        Raw::Listener(raw) => {
            let value = check_listener(alloc, asked, patterns, name, raw)?;
            Ok(Value::Listener(Shared::new(alloc, value)?))
        }
        Raw::Route(raw) => {
            let name = name.clone()?;
            let value = check_routes(alloc, asked, patterns, name, raw)?;
            Ok(Value::Route(Shared::new(alloc, value)?))
        }
        Raw::Cluster(raw) => {
            let value = check_cluster(alloc, name, raw)?;
            Ok(Value::Cluster(Shared::new(alloc, value)?))
        }
        Raw::Endpoint(raw) => {
            let value = check_assignment(alloc, name, raw)?;
            Ok(Value::Endpoint(Shared::new(alloc, value)?))
        }
    }
}

/// The value of a resource with its name, over the texts that were asked by then.
#[tactic(auto, unfolding(crate::specs::Resources::check_of))]
fn check_in_turn<P: Patterns>(
    alloc: Global,
    kind: Kind,
    any: &AnyValue,
    asked: &mut Asked,
    patterns: &mut P,
) -> Result<Checked, Halt>
    requires { length any.now.value < 2 ^ 32 }
    ensures value { GivesOver asked.new result (λ refuses. check_of refuses kind any.now) }
    ensures asked { AsksUntil asked.old asked.new (P.refused patterns.old) (P.refused patterns.new) (halt_ending result) }
    ensures name { IfOk result (λ checked. checked.name ≢ []) }
    ensures lawful { IfOk result (λ checked. IsLawfulValue checked.value) }
    ensures kind { IfOk result (λ checked. kind_of checked.value ≡ kind) }
{
    let Found { name, raw } = read_resource(alloc, kind, any)?;
    let shown = name.clone()?;
    let value = value(alloc, asked, patterns, &name, &raw);
    let value = under(Some(shown), value)?;
    Ok(Checked { name, value })
}

/// The checked value of a resource of the kind, or the step at which its checks stop, under its name where one is
/// known; where they stop at a pattern, with its text. What the refused texts of `asked` gain is this one text, if it
/// isn't among them yet, and else nothing; and `patterns` refuses no other text in this call, unless memory runs out.
/// All else is as with `check`.
pub fn check_or_halt<P: Patterns>(
    alloc: Global,
    kind: Kind,
    any: &AnyValue,
    asked: &mut Asked,
    patterns: &mut P,
) -> Result<Checked, Halt>
    requires { length any.now.value < 2 ^ 32 }
    ensures refused { Gives result (check_of (refusing asked.new) kind any.now) }
    ensures later { GivesOver asked.new result (λ refuses. check_of refuses kind any.now) }
    ensures gains { asked.new.refused ≡ asked.old.refused ++ new_text asked.old.refused (halt_text result) }
    ensures told { TellsAll result (P.refused patterns.old) (P.refused patterns.new) (new_text asked.old.refused (halt_text result)) }
    ensures asked { Asks asked.old asked.new (P.refused patterns.old) (P.refused patterns.new) }
    ensures name { IfOk result (λ checked. checked.name ≢ []) }
    ensures lawful { IfOk result (λ checked. IsLawfulValue checked.value) }
    ensures kind { IfOk result (λ checked. kind_of checked.value ≡ kind) }
{
    let answer = check_in_turn(alloc, kind, any, asked, patterns);
    asked.agree();
    answer
}

/// The checked value of a resource of the kind, or the first reason against it, under its name where one is
/// known (Envoy's xDS transport, gRFC A27, A28, A37, A47). The steps go in the order of the tables: the
/// wrapper, the type, the message, the name, and then the table of the kind. It is refused exactly where the
/// tables refuse it over the refused texts that `asked` has afterwards; so a later resource of the same response
/// gets the same answers for the same texts. A text that `asked` has isn't asked again, and what its refused
/// texts gain is a subsequence of those that `patterns` refused in this call. `Memory` comes where memory ran
/// out, and `asked` may have grown by then.
pub fn check<P: Patterns>(
    alloc: Global,
    kind: Kind,
    any: &AnyValue,
    asked: &mut Asked,
    patterns: &mut P,
) -> Result<Checked, CheckFault>
    requires { length any.now.value < 2 ^ 32 }
    ensures refused { Answers result (check_of (refusing asked.new) kind any.now) }
    ensures later { AnswersOver asked.new result (λ refuses. check_of refuses kind any.now) }
    ensures asked { Asks asked.old asked.new (P.refused patterns.old) (P.refused patterns.new) }
    ensures name { IfOk result (λ checked. checked.name ≢ []) }
    ensures lawful { IfOk result (λ checked. IsLawfulValue checked.value) }
    ensures kind { IfOk result (λ checked. kind_of checked.value ≡ kind) }
{
    let answer = check_or_halt(alloc, kind, any, asked, patterns);
    with_reason(answer)
}
