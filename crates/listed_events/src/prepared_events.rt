//! Events of the driver, prepared with the pattern texts that a report lists as refused.
ghost use Rattle.std.specs.Prelude.{◌≡◌, ◌<◌, ◌^◌, ◌⊎◌, ℕ, List, length, IfNone, IfOk, IfSome, Some, option_map};
ghost use Rattle.resource_check.specs.Deliveries.{IsPrepared};
ghost use Rattle.book_hearing.specs.HeardEvents.{IsPreparedFor, IsShortIn, texts_of};
ghost use Rattle.listed_check.specs.ListedAnswers.{IsPreparedWith, stops_at};
ghost use Rattle.listed_patterns.specs.ListedPatterns.{listed_in};
ghost use Rattle.listed_events.specs.ListedEvents.{IsPreparedBy, IsPreparedWithPrefix, ListsFor, ListsStops, TellsOn, refused_of};

use call_journal::DriverEvent;
use header_match::Patterns;
use listed_check::{ListedAnswer, prepare_listed};
use listed_patterns::listed_patterns;
use resource_check::{Prepared, prepare};
use std::alloc::Global;
use std::marker::Model;
use xc_base::{List, Memory, Shared, Text};

/// An event of the driver; of a response also what became of its reading and its checks.
#[derive(Drop)]
pub struct Coming {
    event: DriverEvent,
    prepared: Option<Prepared>,
}

impl Model for Coming {
    ghost use Rattle.book_hearing.specs.HeardEvents.{IsPreparedFor};
    ghost use Rattle.listed_events.specs.ListedEvents.{ComingView};

    ghost Value = { ComingView };

    ghost view = { λ c. record { event = c.event; prepared = c.prepared } };

    ghost invariant = { λ c. IsPreparedFor c.event c.prepared };
}

impl Coming {
    /// The event, and what its payload was read as.
    pub fn into_parts(self) -> (DriverEvent, Option<Prepared>)
        ensures event { result.0 ≡ self.event }
        ensures prepared { result.1 ≡ self.prepared }
        ensures whole { IsPreparedFor self.event self.prepared }
    {
        (self.event, self.prepared)
    }
}

/// A response, read and checked where exactly these texts are refused. None where its checks stop at other texts, or the
/// builder refuses one more.
fn prepare_with<P: Patterns>(
    alloc: Global,
    payload: &Shared<List<u8>>,
    texts: &[Text],
    patterns: &mut P,
) -> Result<Option<Prepared>, Memory>
    requires { length payload.now < 2 ^ 32 }
    ensures prepared { IfOk result (λ found. IfSome found (IsPreparedWith payload.now texts.now)) }
    ensures others { IfOk result (λ found. IfNone found (texts.now ≡ stops_at texts.now payload.now → length (P.refused patterns.old) < length (P.refused patterns.new))) }
    ensures tells { IfOk result (λ found. TellsOn (P.refused patterns.old) (P.refused patterns.new)) }
{
    let listed = List::from_vec(texts.to_vec(alloc)?);
    match prepare_listed(alloc, payload.share()?, listed, patterns)? {
        ListedAnswer::Prepared(prepared) => Ok(Some(prepared)),
        ListedAnswer::OtherTexts | ListedAnswer::Unbuilt => Ok(None),
    }
}

/// A response, read and checked where the longest of the shorter prefixes of these texts is refused that the checks meet: they
/// stop at exactly its texts. None where they meet none. Every prefix of one that they meet is met too, so the half is tried,
/// then the half of what is left.
#[tactic(auto, using(crate::proofs::TellLemmas::tells_through))]
fn prepare_with_prefix<P: Patterns>(
    alloc: Global,
    payload: &Shared<List<u8>>,
    texts: &[Text],
    patterns: &mut P,
) -> Result<Option<Prepared>, Memory>
    requires { length payload.now < 2 ^ 32 }
    ensures prepared { IfOk result (λ found. IfSome found (IsPreparedWithPrefix payload.now texts.now)) }
    ensures tells { IfOk result (λ found. TellsOn (P.refused patterns.old) (P.refused patterns.new)) }
{
    let mut found = None;
    let mut met = 0;
    let mut unmet = texts.len();
    while met < unmet {
        let half = met + (unmet - met) / 2;
        match prepare_with(alloc, payload, texts.split_at(half).0, patterns)? {
            Some(prepared) => {
                found = Some(prepared);
                met = half + 1;
            }
            None => unmet = half,
        }
    }
    Ok(found)
}

/// A response, read and checked where exactly the texts are refused that the lines list; where its checks don't meet these,
/// where the longest prefix of them is refused that they meet. None where they meet none, or the lines list none that can be
/// read.
#[tactic(auto, using(crate::proofs::TellLemmas::tells_through, crate::proofs::TellLemmas::tells_beyond, crate::proofs::PrefixLemmas::whole))]
fn prepare_by_list<P: Patterns>(
    alloc: Global,
    payload: &Shared<List<u8>>,
    lines: &[u8],
    patterns: &mut P,
) -> Result<Option<Prepared>, Memory>
    requires { length payload.now < 2 ^ 32 }
    ensures prepared { IfOk result (λ found. IfSome found (IsPreparedBy payload.now lines.now)) }
    ensures listed { IfOk result (λ found. (listed : List (List ℕ)) → ListsStops payload.now lines.now listed → (option_map refused_of found ≡ Some listed) ⊎ (length (P.refused patterns.old) < length (P.refused patterns.new))) }
    ensures tells { IfOk result (λ found. TellsOn (P.refused patterns.old) (P.refused patterns.new)) }
{
    let Some(listed) = listed_patterns(alloc, lines)? else {
        return Ok(None);
    };
    let texts = listed.as_slice();
    if let Some(prepared) = prepare_with(alloc, payload, texts, patterns)? {
        return Ok(Some(prepared));
    }
    prepare_with_prefix(alloc, payload, texts, patterns)
}

/// A response, read and checked where the texts are refused that the lines list, and no other; where that can't be, those are
/// refused that the builder refuses.
#[tactic(auto, using(crate::proofs::TellLemmas::tells_more))]
fn prepare_response<P: Patterns>(
    alloc: Global,
    payload: &Shared<List<u8>>,
    lines: &[u8],
    patterns: &mut P,
) -> Result<Prepared, Memory>
    requires { length payload.now < 2 ^ 32 }
    ensures payload { IfOk result (λ prepared. prepared.payload ≡ payload.now) }
    ensures prepared { IfOk result IsPrepared }
    ensures listed { IfOk result (λ prepared. (listed : List (List ℕ)) → ListsStops payload.now lines.now listed → P.refused patterns.new ≡ P.refused patterns.old → prepared.refused ≡ listed) }
    ensures tells { IfOk result (λ prepared. TellsOn (P.refused patterns.old) (P.refused patterns.new)) }
{
    match prepare_by_list(alloc, payload, lines, patterns)? {
        Some(prepared) => Ok(prepared),
        None => {
            let prepared = prepare(alloc, payload.share()?, patterns)?;
            Ok(prepared)
        }
    }
}

/// Prepares an event of the driver: a response is read and checked where the pattern texts are refused that these lines of a
/// report list first. Where its checks stop at others, or the builder refuses one that isn't listed, those are refused that the
/// builder refuses. Any other event comes as it is. It fails for want of memory alone.
pub fn prepare_event<P: Patterns>(
    alloc: Global,
    event: DriverEvent,
    lines: &[u8],
    patterns: &mut P,
) -> Result<Coming, Memory>
    requires { IsShortIn event }
    ensures event { IfOk result (λ coming. coming.event ≡ event) }
    ensures listed { IfOk result (λ coming. (listed : List (List ℕ)) → ListsFor event lines.now listed → P.refused patterns.new ≡ P.refused patterns.old → texts_of coming.prepared ≡ listed) }
    ensures tells { IfOk result (λ coming. TellsOn (P.refused patterns.old) (P.refused patterns.new)) }
{
    let prepared = match &event {
        DriverEvent::Response { payload, .. } => {
            Some(prepare_response(alloc, payload, lines, patterns)?)
        }
        DriverEvent::Opened(_)
        | DriverEvent::Bytes { .. }
        | DriverEvent::Lost(_)
        | DriverEvent::Moment(_)
        | DriverEvent::Endpoint { .. }
        | DriverEvent::Sweep => None,
    };
    Ok(Coming { event, prepared })
}
