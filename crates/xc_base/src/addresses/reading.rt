//! Addresses, read and made.
ghost use Rattle.std.specs.Prelude.{◌≡◌, ◌↔◌, IsTrue, IfOk, Err, string_bytes};
ghost use Rattle.std.specs.Str.{str_to_ascii_lowercase};
ghost use Rattle.xc_base.specs.Addresses.{IsNumericHost, IsPort, IsAddress, GivesAddress, AddressesAreNumeric, address_text, is_ipv4, is_ipv6, is_in_port_range, is_port, is_colon_port, is_ipv4_with_port, is_ipv6_with_port, is_address, is_numeric_host, address_in, address_of};

use super::{Address, AddressFault};
use crate::numbers::read_number;
use crate::text::Text;
use std::alloc::{AllocError, Global};
use std::net::{Ipv4Addr, Ipv6Addr};

/// The address that the text is, with its letters in lower case: a numeric host, where it is IPv6 in
/// brackets, a colon, and a port of 1 to 65,535 without a leading zero.
#[tactic(auto, unfolding(crate::specs::Addresses::address_in))]
pub fn address(alloc: Global, text: &str) -> Result<Address, AddressFault>
    ensures gives { GivesAddress (address_in text.now) result }
    ensures ok { IfOk result (λ a. IsAddress text.now × (a ≡ str_to_ascii_lowercase text.now)) }
    ensures not_numeric { (result ≡ Err AddressFault.NotNumeric) ↔ ¬ (IsAddress text.now) }
{
    if !is_address(text) {
        return Err(AddressFault::NotNumeric);
    }
    let text = Text::lowercase(alloc, text)?;
    Ok(Address { text })
}

/// The address of a numeric host, which has no brackets, and a port, with the letters in lower case.
#[tactic(auto, unfolding(crate::specs::Addresses::address_of))]
pub fn address_of(alloc: Global, host: &str, port: u32) -> Result<Address, AddressFault>
    ensures gives { GivesAddress (address_of host.now port) result }
    ensures ok { IfOk result (λ a. IsNumericHost host.now × IsPort port × (a ≡ str_to_ascii_lowercase (address_text host.now port))) }
    ensures not_numeric { (result ≡ Err AddressFault.NotNumeric) ↔ ¬ (IsNumericHost host.now × IsPort port) }
{
    if !is_numeric_host(host) || !is_in_port_range(u64::from(port)) {
        return Err(AddressFault::NotNumeric);
    }
    let text = address_string(alloc, host, port)?;
    let text = Text::lowercase(alloc, &text)?;
    Ok(Address { text })
}

/// The text of the host and the port: a host with a colon stands in brackets.
fn address_string(alloc: Global, host: &str, port: u32) -> Result<String, AllocError>
    ensures { IfOk result (λ s. string_bytes s ≡ address_text host.now port) }
{
    if host.as_bytes().contains(&b':') {
        let text = format!(in alloc; "[{host}]:{port}")?;
        Ok(text)
    } else {
        let text = format!(in alloc; "{host}:{port}")?;
        Ok(text)
    }
}

/// Whether the text is a numeric host: four decimal numbers 0 to 255 joined by dots, or eight groups
/// of one to four hexadecimal digits joined by colons, or at most seven with one `::`.
pub fn is_numeric_host(host: &str) -> bool
    ensures value { result ≡ is_numeric_host host.now }
    ensures numeric { IsTrue result ↔ IsNumericHost host.now }
{
    is_ipv4(host) || is_ipv6(host)
}

/// Whether the text is four decimal numbers 0 to 255 joined by dots.
fn is_ipv4(host: &str) -> bool
    ensures { result ≡ is_ipv4 host.now }
{
    host.parse::<Ipv4Addr>().is_ok()
}

/// Whether the text is an IPv6 host. std's parser takes one that ends in an IPv4 host, too: such a text has a
/// dot and is refused first.
fn is_ipv6(host: &str) -> bool
    ensures { result ≡ is_ipv6 host.now }
{
    if host.as_bytes().contains(&b'.') {
        return false;
    }
    host.parse::<Ipv6Addr>().is_ok()
}

/// Whether the number is a port, 1 to 65,535.
fn is_in_port_range(port: u64) -> bool
    ensures { result ≡ is_in_port_range port }
{
    0 < port && port <= 65_535
}

/// Whether the text is a port in decimal digits, without a leading zero.
#[tactic(auto, unfolding(crate::specs::Addresses::is_port))]
fn is_port(text: &str) -> bool
    ensures { result ≡ is_port text.now }
{
    match read_number(text) {
        Some(port) => is_in_port_range(port),
        None => false,
    }
}

/// Whether the text is a colon and a port.
fn is_colon_port(text: &str) -> bool
    ensures { result ≡ is_colon_port text.now }
{
    match text.strip_prefix(':') {
        Some(port) => is_port(port),
        None => false,
    }
}

/// Whether the text is an IPv4 host, a colon and a port.
fn is_ipv4_with_port(text: &str) -> bool
    ensures { result ≡ is_ipv4_with_port text.now }
{
    match text.split_once(':') {
        Some((host, port)) => is_ipv4(host) && is_port(port),
        None => false,
    }
}

/// Whether the text is what stands after an opening bracket: an IPv6 host, a closing bracket, a colon and a port.
fn is_ipv6_with_port(text: &str) -> bool
    ensures { result ≡ is_ipv6_with_port text.now }
{
    match text.split_once(']') {
        Some((host, port)) => is_ipv6(host) && is_colon_port(port),
        None => false,
    }
}

/// Whether the text is an address: a bracket tells an IPv6 host.
fn is_address(text: &str) -> bool
    ensures value { result ≡ is_address text.now }
    ensures numeric { IsTrue result ↔ IsAddress text.now }
{
    match text.strip_prefix('[') {
        Some(rest) => is_ipv6_with_port(rest),
        None => is_ipv4_with_port(text),
    }
}

/// The law of addresses: which texts are addresses, and that each address reads as itself. The call does nothing.
pub fn addresses_are_numeric()
    ensures { AddressesAreNumeric }
{}
