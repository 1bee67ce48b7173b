//! Which clusters read the states of addresses.
ghost use Rattle.std.specs.Prelude.{◌≡◌, ◌<◌, ℕ, [], length, get_or, true, false, All, Contains, IfOk, OnOk};
ghost use Rattle.tree_steps.specs.Reports.{localities_of};
ghost use Rattle.tree_steps.specs.Users.{users_at, Grows, ReadsAddresses, ReadsLocalities, ReadsLeaves, MarksUsers};

use crate::leaf_children::localities_of;
use std::alloc::Global;
use std::collections::BTreeMap;
use std::marker::Model;
use xc_base::{Address, List, Memory};
use xds_config::{Leaf, Locality};

/// The addresses whose states are read, each with the places of the clusters that read it.
#[derive(Drop)]
pub struct Users {
    alloc: Global,
    places: BTreeMap<Address, List<u32>>,
    /// How many places all lists have.
    count: usize,
    /// How many they had when that was last noted.
    noted: usize,
}

impl Model for Users {
    ghost use Rattle.tree_steps.specs.Users.{UserList};

    ghost Value = { UserList };

    ghost view = { λ u. u.places.entries };
}

/// Whether a place is among these.
fn has_place(places: &[u32], place: u32) -> bool
    ensures { result ≡ true → Contains places.now place }
{
    places.contains(&place)
}

/// The places with one more at the end.
fn with_place(alloc: Global, places: &[u32], place: u32) -> Result<List<u32>, Memory>
    ensures added { IfOk result (λ all. Contains all place) }
    ensures kept { IfOk result (λ all. (p : ℕ) → Contains places.now p → Contains all p) }
{
    let mut all = List::new(alloc);
    all.extend_from_slice(places)?;
    all.push(place)?;
    Ok(all)
}

impl Users {
    /// No addresses. It takes no memory.
    pub fn new(alloc: Global) -> Users
        ensures { result ≡ [] }
    {
        Users {
            alloc,
            places: BTreeMap::new(alloc),
            count: 0,
            noted: 0,
        }
    }

    /// The places of the clusters that read an address.
    pub fn at(&self, address: &Address) -> &[u32]
        ensures { result.now ≡ users_at self.now address.now }
    {
        match self.places.get(address) {
            Some(places) => places.as_slice(),
            None => &[],
        }
    }

    /// Adds a cluster to those that read an address.
    fn add(&mut self, address: &Address, place: u32) -> Result<(), Memory>
        ensures grows { OnOk result (Grows self.old self.new) }
        ensures added { OnOk result (Contains (users_at self.new address.now) place) }
    {
        let readers = self.at(address);
        if has_place(readers, place) {
            return Ok(());
        }
        let places = with_place(self.alloc, readers, place)?;
        self.places.insert(address.clone()?, places)?;
        self.count = self.count.saturating_add(1);
        Ok(())
    }

    /// Adds a cluster to those that read these addresses.
    fn add_addresses(&mut self, addresses: &[Address], place: u32) -> Result<(), Memory>
        ensures grows { OnOk result (Grows self.old self.new) }
        ensures added { OnOk result (ReadsAddresses self.new place addresses.now) }
    {
        for address in addresses {
            self.add(address, place)?;
        }
        Ok(())
    }

    /// Adds a cluster to those that read the addresses of these localities.
    fn add_localities(&mut self, localities: &[Locality], place: u32) -> Result<(), Memory>
        ensures grows { OnOk result (Grows self.old self.new) }
        ensures added { OnOk result (ReadsLocalities self.new place localities.now) }
    {
        for locality in localities {
            self.add_addresses(locality.addresses.as_slice(), place)?;
        }
        Ok(())
    }

    /// Adds a cluster, by its place, to those that read the addresses of the leaves. It answers want of
    /// memory where there is none.
    pub fn add_leaves(&mut self, leaves: &[Leaf], place: u32) -> Result<(), Memory>
        ensures grows { OnOk result (Grows self.old self.new) }
        ensures added { OnOk result (ReadsLeaves self.new place leaves.now) }
    {
        for leaf in leaves {
            self.add_localities(localities_of(leaf), place)?;
        }
        Ok(())
    }

    /// Notes how many places are kept.
    pub fn note(&mut self)
        ensures { self.new ≡ self.old }
    {
        self.noted = self.count;
    }

    /// Whether more than twice as many places are kept as when that was last noted. Nothing is taken out, so
    /// it is then worth its price to make them anew.
    pub fn has_doubled(&self) -> bool {
        self.count / 2 > self.noted
    }
}

/// Marks these places too.
fn with_marks(mut marks: Vec<bool>, places: &[u32]) -> Vec<bool>
    ensures kept { (p : ℕ) → get_or marks.items p false ≡ true → get_or result.items p false ≡ true }
    ensures marked { (p : ℕ) → Contains places.now p → p < length marks.items → get_or result.items p false ≡ true }
    ensures count { length result.items ≡ length marks.items }
{
    for place in places {
        let place = *place as usize;
        if place < marks.len() {
            marks[place] = true;
        }
    }
    marks
}

/// A mark for each of `count` clusters, which is set where the cluster reads one of the addresses; or want
/// of memory.
pub fn marks_of(
    alloc: Global,
    users: &Users,
    changed: &[Address],
    count: usize,
) -> Result<Vec<bool>, Memory>
    ensures count { IfOk result (λ marks. length marks.items ≡ count) }
    ensures marked { IfOk result (λ marks. MarksUsers users.now changed.now marks.items) }
{
    let mut marks = vec![in alloc; false; count]?;
    for address in changed {
        marks = with_marks(marks, users.at(address));
    }
    Ok(marks)
}
