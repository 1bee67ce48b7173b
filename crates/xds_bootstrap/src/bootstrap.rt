//! The bootstrap as data.
ghost use Rattle.std.specs.Prelude.{◌≡◌, ◌≤◌, ◌<◌, length, IfSome};
ghost use Rattle.std.specs.Str.{bytes_eq};
ghost use Rattle.xds_bootstrap.specs.Authorities.{authority_of, place_among, named};

use xc_base::{Authority, List, Node, Text};

/// The most authorities that have a name in a bootstrap.
pub(crate) const MOST: usize = 65_534;

/// An authority (gRFC A47): its name, the address of the server that its resources are asked of, and
/// the template that makes the names of its listeners.
#[derive(Clone, Drop, PartialEq, Eq)]
pub struct AuthorityEntry {
    pub name: Text,
    pub server_uri: Text,
    pub template: Text,
}

/// The authorities, and the client's node. In a bootstrap that was read, entry 0 is the default authority,
/// whose name is empty, and the named ones stand after it in strictly rising order of their bytes.
#[derive(Clone, Drop, PartialEq, Eq)]
pub struct Bootstrap {
    pub authorities: List<AuthorityEntry>,
    pub node: Node,
}

impl Bootstrap {
    /// The authority of this name among the named ones, which stand after the default one. None where
    /// none has the name. It takes no memory.
    #[tactic(auto, unfolding(crate::specs::Authorities::authority_of))]
    pub fn authority(&self, name: &str) -> Option<Authority>
        ensures { result ≡ authority_of self.now.authorities name.now }
    {
        let place = place_among(named_entries(self.authorities.as_slice()), name)?;
        Some(Authority(place as u16 + 1))
    }
}

/// The named authorities among the entries.
fn named_entries(entries: &[AuthorityEntry]) -> &[AuthorityEntry]
    ensures named { result.now ≡ named entries.now }
    ensures few { length result.now ≤ 65534 }
{
    let (_, rest) = entries.split_at(entries.len().min(1));
    let (named, _) = rest.split_at(rest.len().min(MOST));
    named
}

/// The place of the first entry of this name, from 0.
#[tactic(auto, unfolding(crate::specs::Authorities::place_among))]
fn place_among(entries: &[AuthorityEntry], name: &str) -> Option<usize>
    ensures place { result ≡ place_among entries.now name.now }
    ensures within { IfSome result (λ place. place < length entries.now) }
{
    entries.iter().position(|entry| has_name(entry, name))
}

/// Whether an entry has this name.
fn has_name(entry: &AuthorityEntry, name: &str) -> bool
    ensures { result ≡ bytes_eq entry.now.name name.now }
{
    entry.name.as_str() == name
}
