//! What entries are counted to.
ghost use Rattle.std.specs.Prelude.{◌≡◌, ◌<◌, ◌+◌, ◌-◌, ◌^◌, [], OnOk, option_and_then, option_copied};
ghost use Rattle.config_assembly.specs.Orders.{Name};
ghost use Rattle.totals_writer.specs.Totals.{address_given, endpoint_given, is_pick, is_start, one_if};
ghost use Rattle.totals_writer.specs.Tallying.{HasRoom, count_of, counted_once_more};

use call_journal::{CallerEvent, CallerReply, What};
use cluster_tree::Snapshot;
use report_parts::pick_places::{address_of, picker_in};
use std::alloc::Global;
use std::collections::BTreeMap;
use weighted_lb::Picker;
use xc_base::{Address, Memory, Text};

/// How many calls started and picked, and how often picks gave each address.
#[derive(Drop)]
pub struct Tally {
    pub starts: u32,
    pub picks: u32,
    pub endpoints: BTreeMap<Address, u32>,
}

/// The address of an endpoint that a reply names by its places.
fn endpoint_given<'a>(picker: Option<&'a Picker>, reply: &CallerReply) -> Option<&'a Address>
    ensures { option_copied result ≡ endpoint_given (option_copied picker.entry) reply.now }
{
    match reply {
        CallerReply::Endpoint {
            locality,
            place,
            ..
        } => address_of(picker?, *locality, *place),
        CallerReply::Pinned(_)
        | CallerReply::NoSnapshot
        | CallerReply::Routed { .. }
        | CallerReply::Queue { .. }
        | CallerReply::Fail { .. }
        | CallerReply::Drop { .. }
        | CallerReply::NotHeld
        | CallerReply::Released => None,
    }
}

impl Tally {
    /// Nothing is counted. It takes no memory.
    pub fn new(alloc: Global) -> Tally
        ensures starts { result.starts ≡ 0 }
        ensures picks { result.picks ≡ 0 }
        ensures endpoints { result.endpoints.entries ≡ [] }
    {
        Tally {
            starts: 0,
            picks: 0,
            endpoints: BTreeMap::new(alloc),
        }
    }

    /// How often picks gave an address.
    fn of(&self, address: &Address) -> u32
        ensures { result ≡ count_of self.now.endpoints.entries address.now }
    {
        self.endpoints.get(address).copied().unwrap_or(0)
    }

    /// Counts the address that a pick gave, where it gave one.
    fn give(&mut self, address: Option<&Address>) -> Result<(), Memory>
        requires room { (address : Name) → count_of self.old.endpoints.entries address < 2 ^ 32 - 1 }
        ensures starts { self.new.starts ≡ self.old.starts }
        ensures picks { self.new.picks ≡ self.old.picks }
        ensures endpoints { OnOk result (self.new.endpoints.entries ≡ counted_once_more (option_copied address.entry) self.old.endpoints.entries) }
    {
        let Some(address) = address else {
            return Ok(());
        };
        let count = self.of(address) + 1;
        self.endpoints.insert(address.clone()?, count)?;
        Ok(())
    }

    /// Counts an entry, which names this snapshot; at a pick its call holds this cluster. No count is 2^32 - 1 before.
    pub fn follow(
        &mut self,
        snapshot: Option<&Snapshot>,
        cluster: Option<&Text>,
        what: &What,
    ) -> Result<(), Memory>
        requires room { HasRoom self.old }
        ensures starts { OnOk result (self.new.starts ≡ self.old.starts + one_if (is_start what.now)) }
        ensures picks { OnOk result (self.new.picks ≡ self.old.picks + one_if (is_pick what.now)) }
        ensures endpoints { OnOk result (self.new.endpoints.entries ≡ counted_once_more (address_given (option_copied snapshot.entry) (option_copied cluster.entry) what.now) self.old.endpoints.entries) }
    {
        match what {
            What::Driver { .. } => Ok(()),
            What::Caller { event, reply } => match event {
                CallerEvent::Pin(_) => {
                    self.starts += 1;
                    Ok(())
                }
                CallerEvent::Pick { .. } => {
                    self.picks += 1;
                    self.give(endpoint_given(picker_in(snapshot, cluster), reply))
                }
                CallerEvent::Hold(_) | CallerEvent::Commit(_) => Ok(()),
            },
        }
    }
}
