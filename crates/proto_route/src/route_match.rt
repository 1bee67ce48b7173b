//! Which calls a route is for.
ghost use Rattle.std.specs.Prelude.{◌≡◌, option_map};
ghost use Rattle.proto_route.specs.declared.route_match.RawRouteMatchOne.TheVariants.{SafeRegex};

use crate::fractional_percent::RawRuntimeFractionalPercent;
use crate::header_matcher::RawHeaderMatcher;
use crate::string_matcher::RawRegexMatcher;
use proto_wire::{
    Member, Message, WireFault, fields, if_set, last_text, occurrences, oneof_of, read_member,
    read_repeated, read_singular, repeated_copies,
};
use std::alloc::Global;
use xc_base::{List, Text};

/// A test of a path.
#[derive(Drop)]
pub enum RawRouteMatchOne {
    /// The path begins with this text.
    Prefix(Text),
    /// The path is this text.
    Path(Text),
    /// The pattern matches the path from its beginning to its end.
    SafeRegex(RawRegexMatcher),
}

/// A RouteMatch (gRFC A28).
#[derive(Drop)]
pub struct RawRouteMatch {
    /// The test of the path that is set, if one is.
    pub one: Option<RawRouteMatchOne>,
    /// None where it is absent, which has the meaning of true.
    pub case_sensitive: Option<bool>,
    /// The tests of headers, which a call meets all.
    pub headers: List<RawHeaderMatcher>,
    /// The bytes of each, unread.
    pub query_parameters: List<List<u8>>,
    /// The part of the calls that the route takes; all where it is absent.
    pub runtime_fraction: Option<RawRuntimeFractionalPercent>,
}

/// The test by the pattern.
fn regex_test(regex: Option<RawRegexMatcher>) -> Option<RawRouteMatchOne>
    ensures { result ≡ option_map SafeRegex regex }
{
    regex.map(RawRouteMatchOne::SafeRegex)
}

impl Message for RawRouteMatch {
    ghost use Rattle.proto_route.specs.RouteMatch.{route_match_of};

    ghost reading = { route_match_of };

    #[tactic(auto, unfolding(crate::specs::RouteMatch::route_match_of))]
    fn read(alloc: Global, bytes: &[u8]) -> Result<RawRouteMatch, WireFault> {
        let list = fields(alloc, bytes)?;
        let tests = occurrences(
            alloc,
            &list,
            &[Member::Bytes(1), Member::Bytes(2), Member::Bytes(10)],
        )?;
        let set = oneof_of(&tests, &[1, 2, 10]);
        let prefix = last_text(alloc, &list, 1)?;
        let path = last_text(alloc, &list, 2)?;
        let case_sensitive = read_singular::<bool>(alloc, &list, 4)?;
        let headers = read_repeated::<RawHeaderMatcher>(alloc, &list, 6)?;
        let query_parameters = repeated_copies(alloc, &list, 7)?;
        let runtime_fraction = read_singular::<RawRuntimeFractionalPercent>(alloc, &list, 9)?;
        let safe_regex = read_member::<RawRegexMatcher>(alloc, &tests, 10)?;
        let one = if_set(set, 1, RawRouteMatchOne::Prefix(prefix))
            .or(if_set(set, 2, RawRouteMatchOne::Path(path)))
            .or(regex_test(safe_regex));
        Ok(RawRouteMatch {
            one,
            case_sensitive,
            headers,
            query_parameters,
            runtime_fraction,
        })
    }
}
