//! The trees of all clusters, by what addresses reported and the time.
ghost use Rattle.std.specs.Prelude.{◌≡◌, ◌∷◌, ℕ, List, [], false, map, Some, OnOk, IfOk, option_map, slice_get};
ghost use Rattle.call_journal.specs.declared.reply.DriverReply.{DriverReply};
ghost use Rattle.call_journal.specs.declared.entry.Entry.{Entry};
ghost use Rattle.xds_config.specs.declared.config.Config.{Config as ConfigValue};
ghost use Rattle.xds_config.specs.declared.config.ClusterEntry.{ClusterEntry};
ghost use Rattle.xds_config.specs.Configs.{IsLawfulConfig};
ghost use Rattle.cluster_tree.specs.StandingTrees.{ChangesAt};
ghost use Rattle.cluster_tree.specs.ClusterUsers.{EntriesStay};
ghost use Rattle.cluster_tree.specs.ViewChanges.{ArePickable};
ghost use Rattle.xds_history.specs.declared.page.Page.{Page};
ghost use Rattle.xds_history.specs.Page.{config_now, trees_now};
ghost use Rattle.book_trees.specs.TreesKept.{AreMarked, AreTreesAt, AreTreesWith, IsPageOf, IsReport, StayInPlace, driven, reported_in, views_after};

use call_journal::DriverEvent;
use cluster_tree::{FollowedViews, NextConfig, Trees, UpdatedViews};
use std::alloc::Global;
use std::collections::BTreeMap;
use std::slice;
use xc_base::{Address, Memory, State, Time};
use xds_config::LocalityId;

/// What is kept of the trees.
#[derive(Drop)]
pub struct ReportedTrees {
    /// The states that addresses reported last.
    pub reports: BTreeMap<Address, State>,
    /// The time in milliseconds.
    pub now: Time,
    /// The trees of the clusters of the configuration.
    pub trees: Trees,
}

/// The address whose state an event reports.
fn reported_in(event: &DriverEvent) -> &[Address]
    ensures { result.now ≡ reported_in event.now }
{
    match event {
        DriverEvent::Endpoint { address, .. } => slice::from_ref(address.get()),
        _ => &[],
    }
}

/// Takes in the state that an address reports.
fn report(
    reports: &mut BTreeMap<Address, State>,
    address: &Address,
    state: State,
) -> Result<(), Memory>
    ensures { OnOk result (IsReport reports.old.entries reports.new.entries address.now state) }
{
    reports.insert(address.clone()?, state)?;
    Ok(())
}

impl ReportedTrees {
    /// No reports and no trees, at time 0. It takes no memory.
    pub fn new(alloc: Global) -> ReportedTrees
        ensures { AreTreesAt [] [] result }
    {
        ReportedTrees {
            reports: BTreeMap::new(alloc),
            now: Time(0),
            trees: Trees::new(alloc),
        }
    }

    /// Takes in what an event reports, or what time it tells. The trees follow by `follow` or `stay`; where there is no
    /// configuration before the entry and after it, there is nothing that follows.
    pub fn came(&mut self, event: &DriverEvent) -> Result<(), Memory>
        ensures { OnOk result ((past : List Entry) (ps : List Page) → AreTreesAt past ps self.old → AreTreesWith event.now past ps self.new) }
    {
        match event {
            DriverEvent::Endpoint { address, state } => {
                report(&mut self.reports, address.get(), *state)?;
            }
            DriverEvent::Moment(time) => {
                self.now = self.now.max(*time);
            }
            _ => {}
        }
        Ok(())
    }

    /// Brings the trees to a configuration, where this event came. It answers what is seen of each cluster, and which of it
    /// differs from what was seen of the cluster of its name, and which cluster may be another one than stood at its place. A
    /// cluster that is the same as in the configuration before costs little, if it reads no address whose state was reported
    /// and has no timer that runs, and next to nothing where the clusters aren't renamed: then entries are compared where
    /// they are marked alone, and one without a mark is known to be the one that stood at its place. After want of memory nothing is said of what is kept.
    pub fn follow(
        &mut self,
        event: &DriverEvent,
        next: NextConfig<'_>,
    ) -> Result<FollowedViews, Memory>
        requires lawful { IsLawfulConfig next.config.now }
        requires changes { ChangesAt (reported_in event.now) self.old.reports.entries self.old.trees }
        requires others { EntriesStay next.others.now self.old.trees.clusters next.config.now.clusters }
        requires names { next.is_renamed ≡ false → map (λ e. e.name) next.config.now.clusters ≡ map (λ c. c.entry.name) self.old.trees.clusters }
        ensures views { IfOk result (λ followed. (past : List Entry) (ps : List Page) → AreTreesWith event.now past ps self.old → followed.seen.views ≡ views_after event.now past ps next.entry.config.now) }
        ensures changed { IfOk result (λ followed. (past : List Entry) (ps : List Page) → AreTreesWith event.now past ps self.old → AreMarked followed.seen.changed past ps next.entry.config.now followed.seen.views) }
        ensures still { IfOk result (λ followed. (past : List Entry) (ps : List Page) → AreTreesWith event.now past ps self.old → StayInPlace followed.anew event.now past ps next.entry.config.now) }
        ensures pickable { IfOk result (λ followed. ArePickable followed.seen.views) }
        ensures kept { OnOk result ((past : List Entry) (ps : List Page) (actor line : ℕ) (reply : DriverReply) (page : Page) → AreTreesWith event.now past ps self.old → IsPageOf event.now past ps (Some next.entry.config.now) page → AreTreesAt (driven actor line event.now reply ∷ past) (page ∷ ps) self.new) }
    {
        let changed = reported_in(event);
        let followed = self.trees.update(next, &self.reports, self.now, changed)?;
        Ok(followed)
    }

    /// The same with the configuration of the driver's entry before. A cluster that reads no address whose state was reported
    /// and has no timer that runs costs next to nothing.
    pub fn stay(&mut self, event: &DriverEvent) -> Result<UpdatedViews, Memory>
        requires { ChangesAt (reported_in event.now) self.old.reports.entries self.old.trees }
        ensures views { IfOk result (λ seen. (past : List Entry) (ps : List Page) (config : ConfigValue) → AreTreesWith event.now past ps self.old → config_now ps ≡ Some config → seen.views ≡ views_after event.now past ps config) }
        ensures changed { IfOk result (λ seen. (past : List Entry) (ps : List Page) (config : ConfigValue) → AreTreesWith event.now past ps self.old → config_now ps ≡ Some config → AreMarked seen.changed past ps config seen.views) }
        ensures still { IfOk result (λ seen. (past : List Entry) (ps : List Page) (config : ConfigValue) → AreTreesWith event.now past ps self.old → config_now ps ≡ Some config → StayInPlace seen.changed event.now past ps config) }
        ensures pickable { IfOk result (λ seen. ArePickable seen.views) }
        ensures kept { OnOk result ((past : List Entry) (ps : List Page) (config : ConfigValue) (actor line : ℕ) (reply : DriverReply) (page : Page) → AreTreesWith event.now past ps self.old → config_now ps ≡ Some config → IsPageOf event.now past ps (Some config) page → AreTreesAt (driven actor line event.now reply ∷ past) (page ∷ ps) self.new) }
    {
        let changed = reported_in(event);
        let seen = self.trees.update_states(&self.reports, self.now, changed)?;
        Ok(seen)
    }
}
