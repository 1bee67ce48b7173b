//! Responses that are read and checked where the refused pattern texts are given.
ghost use Rattle.std.specs.Prelude.{◌≡◌, ◌<◌, ◌^◌, ℕ, List, length, IfOk, None};
ghost use Rattle.std.specs.Result.{result_ok};
ghost use Rattle.proto_discovery.specs.Response.{response_of};
ghost use Rattle.listed_check.specs.ListedAnswers.{IfOthers, IfPrepared, TellsUnbuilt};

use crate::listed_resources::{ListedParts, check_of_kind};
use header_match::Patterns;
use proto_discovery::kind_of;
use resource_check::preparation::response;
use resource_check::{Prepared, Reading};
use std::alloc::Global;
use xc_base::{List, Memory, Shared, Text};

/// What a response comes to where these texts are refused.
#[derive(Drop)]
pub enum ListedAnswer {
    /// It was read and checked, and its checks stop at exactly these texts.
    Prepared(Prepared),
    /// The checks stop at other texts than these, or in another order.
    OtherTexts,
    /// The builder refused a text that isn't one of these.
    Unbuilt,
}

/// What a payload comes to that can't be read: no check stops.
fn unread(payload: Shared<List<u8>>, listed: List<Text>) -> ListedAnswer
    requires { None ≡ result_ok (response_of payload) }
    ensures prepared { IfPrepared payload listed result }
    ensures others { IfOthers payload listed result }
    ensures told { (told : List (List ℕ)) → TellsUnbuilt told told result }
{
    if listed.is_empty() {
        ListedAnswer::Prepared(Prepared {
            payload,
            reading: Reading::Unreadable,
            refused: listed,
        })
    } else {
        ListedAnswer::OtherTexts
    }
}

/// Reads the payload of a response and checks its resources, where exactly `listed` are refused as patterns: none of
/// them is asked of `patterns`. It fails for want of memory alone.
pub fn prepare_listed<P: Patterns>(
    alloc: Global,
    payload: Shared<List<u8>>,
    listed: List<Text>,
    patterns: &mut P,
) -> Result<ListedAnswer, Memory>
    requires { length payload < 2 ^ 32 }
    ensures prepared { IfOk result (IfPrepared payload listed) }
    ensures others { IfOk result (IfOthers payload listed) }
    ensures unbuilt { IfOk result (TellsUnbuilt (P.refused patterns.old) (P.refused patterns.new)) }
{
    let Some(response) = response(alloc, payload.get().as_slice())? else {
        return Ok(unread(payload, listed));
    };
    let kind = kind_of(response.type_url.as_str());
    match check_of_kind(
        alloc,
        kind,
        response.resources.as_slice(),
        &listed,
        patterns,
    )? {
        ListedParts::Delivered(parts) => Ok(ListedAnswer::Prepared(Prepared {
            payload,
            reading: Reading::Read {
                kind,
                version: response.version,
                nonce: response.nonce,
                parts,
            },
            refused: listed,
        })),
        ListedParts::OtherTexts => Ok(ListedAnswer::OtherTexts),
        ListedParts::Unbuilt => Ok(ListedAnswer::Unbuilt),
    }
}
