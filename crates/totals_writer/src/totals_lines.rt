//! The lines of totals.
ghost use Rattle.std.specs.Prelude.{◌≡◌, IfOk, string_bytes};
ghost use Rattle.std.specs.List.{flat_map};
ghost use Rattle.totals_writer.specs.Totals.{count_line, endpoint_line, totals_text};
ghost use Rattle.totals_writer.specs.Tallying.{totals_in};

use crate::tallies::Tally;
use std::alloc::Global;
use std::collections::BTreeMap;
use xc_base::{Address, Memory};

/// The line of a count: what is counted, and how often.
#[tactic(auto, unfolding(crate::specs::Totals::count_line))]
fn count_line(alloc: Global, what: &str, count: u32) -> Result<String, Memory>
    ensures { IfOk result (λ s. string_bytes s ≡ count_line what.now count) }
{
    let text = format!(in alloc; "{what} {count}\n")?;
    Ok(text)
}

/// The line of an address, with how often picks gave it.
#[tactic(auto, unfolding(crate::specs::Totals::endpoint_line))]
fn endpoint_line(alloc: Global, address: &Address, count: u32) -> Result<String, Memory>
    ensures { IfOk result (λ s. string_bytes s ≡ endpoint_line (address.now, count)) }
{
    let text = format!(in alloc; "endpoint {address} {count}\n")?;
    Ok(text)
}

/// The lines of all addresses, in the order of their bytes.
fn endpoint_lines(alloc: Global, endpoints: &BTreeMap<Address, u32>) -> Result<String, Memory>
    ensures { IfOk result (λ s. string_bytes s ≡ flat_map endpoint_line endpoints.now.entries) }
{
    let mut out = String::new(alloc);
    for (address, count) in endpoints {
        out.push_str(endpoint_line(alloc, address, *count)?.as_str())?;
    }
    Ok(out)
}

/// The totals of a session of so many rounds, whose journal has so many entries and published so many snapshots.
#[tactic(auto, unfolding(crate::specs::Totals::totals_text))]
pub fn totals_text(
    alloc: Global,
    rounds: u32,
    entries: u32,
    snapshots: u32,
    tally: &Tally,
) -> Result<String, Memory>
    ensures { IfOk result (λ s. string_bytes s ≡ totals_text (totals_in rounds entries snapshots tally.now)) }
{
    let load = count_line(alloc, "load", rounds)?;
    let entries = count_line(alloc, "entries", entries)?;
    let snapshots = count_line(alloc, "snapshots", snapshots)?;
    let starts = count_line(alloc, "starts", tally.starts)?;
    let picks = count_line(alloc, "picks", tally.picks)?;
    let endpoints = endpoint_lines(alloc, &tally.endpoints)?;
    let text = format!(in alloc; "{load}{entries}{snapshots}{starts}{picks}{endpoints}")?;
    Ok(text)
}
