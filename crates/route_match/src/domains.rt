//! Domains of virtual hosts.
ghost use Rattle.std.specs.Prelude.{◌≡◌};
ghost use Rattle.route_match.specs.Domains.{class_of, order_of, domain_met};
ghost use Rattle.route_match.specs.Ranks.{rank_of, outranks, better};

use header_match::texts::{begins_with, ends_with, is_same};
use xc_base::Text;

/// What a domain is (Envoy's `VirtualHost.domains`), the preferred ones first.
#[derive(Clone, Copy)]
pub enum Class {
    /// `www.foo.com`
    Exact,
    /// `*.foo.com`
    SuffixWildcard,
    /// `foo.*`
    PrefixWildcard,
    /// `*`
    Universal,
}

impl Class {
    /// The class of a domain.
    pub fn of(domain: &[u8]) -> Class
        ensures { result ≡ class_of domain.now }
    {
        match domain {
            [b'*'] => Class::Universal,
            [b'*', ..] => Class::SuffixWildcard,
            [.., b'*'] => Class::PrefixWildcard,
            _ => Class::Exact,
        }
    }

    /// The place of the class among all, of which the preferred one is 0.
    fn order(self) -> u8
        ensures { result ≡ order_of self }
    {
        match self {
            Class::Exact => 0,
            Class::SuffixWildcard => 1,
            Class::PrefixWildcard => 2,
            Class::Universal => 3,
        }
    }
}

/// By what a domain is preferred to others: its class, then its length in bytes. The host is the place of
/// its virtual host, from 0.
#[derive(Clone, Copy)]
pub struct Rank {
    pub class: Class,
    pub length: usize,
    pub host: u32,
}

/// Whether a text meets a domain (gRFC A28). ASCII letters are compared without case, and a wildcard
/// stands for at least one character. It takes no memory.
pub fn domain_met(domain: &[u8], text: &[u8]) -> bool
    ensures { result ≡ domain_met domain.now text.now }
{
    match Class::of(domain) {
        Class::Exact => is_same(text, domain, true),
        Class::SuffixWildcard => {
            domain.len() - 1 < text.len() && ends_with(text, &domain[1..], true)
        }
        Class::PrefixWildcard => {
            let prefix = &domain[..domain.len() - 1];
            prefix.len() < text.len() && begins_with(text, prefix, true)
        }
        Class::Universal => !text.is_empty(),
    }
}

/// The rank of a domain, if the text meets it.
pub(crate) fn rank_of(host: u32, domain: &Text, text: &Text) -> Option<Rank>
    ensures { result ≡ rank_of host domain.now text.now }
{
    let domain = domain.as_str().as_bytes();
    if !domain_met(domain, text.as_str().as_bytes()) {
        return None;
    }
    Some(Rank {
        class: Class::of(domain),
        length: domain.len(),
        host,
    })
}

/// Whether a domain of the first rank is preferred to one of the second.
fn outranks(a: Rank, b: Rank) -> bool
    ensures { result ≡ outranks a b }
{
    a.class.order() < b.class.order() || a.class.order() == b.class.order() && a.length > b.length
}

/// The better of two ranks, and the first of two that are alike.
pub(crate) fn better(best: Option<Rank>, rank: Option<Rank>) -> Option<Rank>
    ensures { result ≡ better best rank }
{
    match (best, rank) {
        (best, None) => best,
        (None, Some(rank)) => Some(rank),
        (Some(best), Some(rank)) => {
            if outranks(rank, best) {
                Some(rank)
            } else {
                Some(best)
            }
        }
    }
}
