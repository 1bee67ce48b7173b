//! What the words of a line say, each by itself.
ghost use Rattle.std.specs.Prelude.{◌≡◌, ◌==◌, ◌≤◌, IfSome, slice_index};
ghost use Rattle.xc_base.specs.Addresses.{address_in};
ghost use Rattle.std.specs.Option.{ok_or};
ghost use Rattle.session_lines.specs.Works.{GivesLine};
ghost use Rattle.session_lines.specs.WordValues.{all_digits, authority_in, bytes_in, is_number, number_up_to, number_within, path_in, state_in};
ghost use Rattle.xds_bootstrap.specs.Authorities.{AreAuthorities};
ghost use Rattle.xds_name.specs.NameTexts.{seen};
ghost use Rattle.session_lines.specs.declared.cause.Cause.TheVariants as cause;

use crate::authority_search::authority_named;
use crate::cause::{Cause, LineFault};
use crate::line_texts::after;
use hex::FromHexError;
use std::alloc::Global;
use xc_base::{Address, AddressFault, Authority, List, State, address, read_number};
use xds_bootstrap::Bootstrap;

/// The authority of a word: `-` is the default one, and `+` and a name a named one.
#[tactic(auto, unfolding(crate::specs::WordValues::authority_in))]
pub fn authority_in(boot: &Bootstrap, word: &str) -> Option<Authority>
    requires lawful { AreAuthorities boot.now.authorities }
    ensures { result ≡ authority_in boot.now.authorities word.now }
{
    if word == "-" {
        return Some(Authority::DEFAULT);
    }
    let name = after("+", word)?;
    authority_named(boot, name)
}

/// A number up to this one.
#[tactic(auto, unfolding(crate::specs::WordValues::number_up_to))]
pub fn number_up_to(most: u64, word: &str) -> Option<u64>
    ensures number { result ≡ number_up_to most word.now }
    ensures few { IfSome result (λ n. n ≤ most) }
{
    match read_number(word) {
        Some(number) if number <= most => Some(number),
        _ => None,
    }
}

/// A number from this one on and up to that one.
#[tactic(auto, unfolding(crate::specs::WordValues::number_within))]
pub fn number_within(least: u64, most: u64, word: &str) -> Option<u64>
    ensures number { result ≡ number_within least most word.now }
    ensures few { IfSome result (λ n. n ≤ most) }
{
    match number_up_to(most, word) {
        Some(number) if number >= least => Some(number),
        _ => None,
    }
}

/// Whether each byte is a decimal digit.
fn all_digits(word: &str) -> bool
    ensures { result ≡ all_digits word.now }
{
    word.as_bytes().iter().all(|b| b.is_ascii_digit())
}

/// Whether the first byte is `0`.
fn begins_with_zero(word: &str) -> bool
    ensures { result ≡ (slice_index word.now 0 == 48) }
{
    word.starts_with('0')
}

/// Whether the word is a number of any length, in decimal digits without a leading zero.
#[tactic(auto, unfolding(crate::specs::WordValues::is_number))]
pub fn is_number(word: &str) -> bool
    ensures { result ≡ is_number word.now }
{
    word.len() != 0 && all_digits(word) && (word.len() == 1 || !begins_with_zero(word))
}

/// The bytes that hexadecimal digits spell, at least one.
#[tactic(auto, unfolding(crate::specs::WordValues::bytes_in))]
pub fn bytes_in(alloc: Global, digits: &str) -> Result<List<u8>, LineFault>
    ensures { GivesLine (λ bytes. bytes) result (ok_or (bytes_in digits.now) cause.Hex) }
{
    if digits.len() == 0 {
        return Err(LineFault::Because(Cause::Hex));
    }
    match hex::decode(alloc, digits.as_bytes()) {
        Ok(bytes) => Ok(List::from_vec(bytes)),
        Err(FromHexError::OutOfMemory) => Err(LineFault::Memory),
        Err(_) => Err(LineFault::Because(Cause::Hex)),
    }
}

/// The address of an endpoint.
pub fn address_in(alloc: Global, word: &str) -> Result<Address, LineFault>
    ensures { GivesLine (λ address. address) result (ok_or (address_in word.now) cause.Address) }
{
    match address(alloc, word) {
        Ok(address) => Ok(address),
        Err(AddressFault::NotNumeric) => Err(LineFault::Because(Cause::Address)),
        Err(AddressFault::Memory) => Err(LineFault::Memory),
    }
}

/// The state of an endpoint.
#[tactic(auto, unfolding(crate::specs::WordValues::state_in))]
pub fn state_in(word: &str) -> Option<State>
    ensures { result ≡ state_in word.now }
{
    match word {
        "idle" | "connecting" => Some(State::Connecting),
        "ready" => Some(State::Ready),
        "failing" => Some(State::Failing),
        _ => None,
    }
}

/// A path, which begins with `/`.
pub fn path_in(word: &str) -> Option<&str>
    ensures { seen result ≡ path_in word.now }
{
    if word.starts_with('/') {
        Some(word)
    } else {
        None
    }
}
