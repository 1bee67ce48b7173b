//! The trees of all clusters.
ghost use Rattle.std.specs.Prelude.{◌≡◌, ◌<◌, ◌^◌, ℕ, true, false, length, map, get_or, All, AllPairs, IfOk, OnOk};
ghost use Rattle.xds_config.specs.Configs.{IsLawfulConfig, IsNameBefore, AreLawfulLeaves};
ghost use Rattle.cluster_tree.specs.StandingTrees.{clusters_after, views_of, no_clusters, entries_of, forest_after, IsUpdatedWith, ChangesAt};
ghost use Rattle.cluster_tree.specs.ClusterUsers.{AreRead, AreReadBut, EntriesStay, OthersStay, StandBut, FollowsEntry};
ghost use Rattle.cluster_tree.specs.PutEntries.{ArePut, ChangesBut};
ghost use Rattle.cluster_tree.specs.ViewChanges.{MarkChanges, MarkChangesInPlace, ArePickable, localities_at};

use crate::cluster_entries::{EntriesPut, put_entries};
use crate::cluster_merge::{NextClusters, Times, Turn, find_cluster, is_marked, next_cluster};
use crate::cluster_steps::{InPlace, step_clusters};
use crate::cluster_timers::{ClusterIndex, add_new_ends};
use crate::cluster_trees::{Cluster, add_users, served_localities};
use crate::cluster_views::views_after;
use block_list::BlockList;
use place_marks::Marks;
use std::alloc::Global;
use std::collections::BTreeMap;
use std::marker::Model;
use std::mem;
use tree_steps::Users;
use tree_steps::users::marks_of;
use tree_text::ShownTree;
use xc_base::{Address, Memory, Reason, Shared, State, Time};
use xds_config::{ClusterEntry, Config, Locality};

/// What is seen of the clusters of a configuration after an update, in the configuration's order.
#[derive(Drop)]
pub struct UpdatedViews {
    /// The view of each cluster's trees, or the reason why the cluster has none. A view that didn't
    /// change is shared.
    pub views: BlockList<Result<Shared<ShownTree>, Reason>>,
    /// For each cluster, whether what is seen of it differs from what the update before gave of it.
    pub changed: Marks,
}

/// What is seen of the clusters of a configuration that the trees were brought to.
#[derive(Drop)]
pub struct FollowedViews {
    /// What is seen of them.
    pub seen: UpdatedViews,
    /// For each cluster, whether it may be another one than the one that stood at its place: in its entry, in its trees
    /// or in what is seen of them.
    pub anew: Marks,
}

/// A configuration that the trees are brought to, beside that of the last update.
#[derive(Clone, Copy)]
pub struct NextConfig<'a> {
    /// The configuration.
    pub config: &'a Shared<Config>,
    /// For each of its entries, whether it may be another one than stood at its place.
    pub others: &'a Marks,
    /// Whether its clusters may have other names than those of the last update, one after another.
    pub is_renamed: bool,
}

/// The trees of the clusters of a configuration, of which there are fewer than 2^31. Contracts see them as
/// these clusters with what is kept of their trees, and the time of the last update.
#[derive(Drop)]
pub struct Trees {
    alloc: Global,
    time: Time,
    clusters: Vec<Cluster>,
    /// Which of them an address or a time touches.
    index: ClusterIndex,
    /// What was seen of the clusters at the last update. An update shares the blocks of it in which nothing changed.
    seen: BlockList<Result<Shared<ShownTree>, Reason>>,
}

impl Model for Trees {
    ghost use Rattle.cluster_tree.specs.StandingTrees.{Forest};
    ghost use Rattle.cluster_tree.specs.ClusterTimers.{AreKept};

    ghost Value = { Forest };

    ghost view = { λ t. record { now = t.time; clusters = t.clusters.items } };

    ghost invariant = { λ t. AreKept t.index.users t.index.ends t.seen t.clusters.items };
}

/// Which clusters read which addresses.
fn users_of(alloc: Global, clusters: &[Cluster]) -> Result<Users, Memory>
    requires few { length clusters.now < 2 ^ 31 }
    requires follow { All FollowsEntry clusters.now }
    ensures { IfOk result (λ users. AreRead users clusters.now) }
{
    let mut users = Users::new(alloc);
    for (place, cluster) in clusters.iter().enumerate() {
        add_users(&mut users, cluster, place as u32)?;
    }
    users.note();
    Ok(users)
}

/// Adds the clusters that are new at their places to those that read their addresses.
fn add_all_new(users: &mut Users, clusters: &[Cluster], anew: &Marks) -> Result<(), Memory>
    requires count { length anew.now ≡ length clusters.now }
    requires others { AreReadBut anew.now users.old clusters.now }
    requires follow { All FollowsEntry clusters.now }
    ensures { OnOk result (AreRead users.new clusters.now) }
{
    let places = anew.places();
    for place in places {
        add_users(users, &clusters[*place as usize], *place)?;
    }
    Ok(())
}

/// Brings what is kept of which clusters read which addresses to the next clusters. It is made anew where it
/// has grown to more than twice of what it was.
fn follow_users(alloc: Global, users: &mut Users, next: &NextClusters) -> Result<(), Memory>
    requires few { length next.now.clusters.items < 2 ^ 31 }
    requires count { length next.now.anew ≡ length next.now.clusters.items }
    requires others { AreReadBut next.now.anew users.old next.now.clusters.items }
    requires follow { All FollowsEntry next.now.clusters.items }
    ensures { OnOk result (AreRead users.new next.now.clusters.items) }
{
    if users.has_doubled() {
        *users = users_of(alloc, &next.clusters)?;
        return Ok(());
    }
    add_all_new(users, &next.clusters, &next.anew)
}

impl Trees {
    /// No trees. It takes no memory.
    pub fn new(alloc: Global) -> Trees
        ensures { result ≡ no_clusters }
    {
        Trees {
            alloc,
            time: Time(0),
            clusters: Vec::new(alloc),
            index: ClusterIndex::new(alloc),
            seen: BlockList::new(alloc),
        }
    }

    /// The clusters of a configuration after an update. Those before stand in the order of their names, as the entries
    /// do, so that each is passed once.
    fn clusters_after(
        &self,
        reports: &BTreeMap<Address, State>,
        now: Time,
        entries: &BlockList<Shared<ClusterEntry>>,
        readers: &[bool],
    ) -> Result<NextClusters, Memory>
        requires few { length entries.now < 2 ^ 31 }
        requires lawful { All (λ entry. IfOk entry.state AreLawfulLeaves) entries.now }
        requires rising { AllPairs (λ a b. IsNameBefore a.name b.name) entries.now }
        requires others { OthersStay self.now.now now reports.now.entries readers.now self.now.clusters }
        ensures changed { IfOk result (λ next. MarkChanges next.changed self.now.clusters next.clusters.items) }
        ensures clusters { IfOk result (λ next. next.clusters.items ≡ clusters_after now reports.now.entries entries.now self.now.clusters) }
        ensures anew { IfOk result (λ next. StandBut next.anew self.now.clusters next.clusters.items) }
    {
        let times = Times {
            last: self.time,
            this: now,
        };
        let old = self.clusters.as_slice();
        let mut next = NextClusters::with_room(self.alloc, entries.len())?;
        let mut from = 0;
        for place in 0..entries.len() {
            let entry = entries.at(place);
            let before = find_cluster(old, from, &entry.get().name);
            from = before.place;
            let turn = Turn {
                times,
                marked: is_marked(readers, from),
            };
            let cluster = next_cluster(self.alloc, reports, turn, entry, before.cluster)?;
            next.push(cluster, from != place)?;
        }
        Ok(next)
    }

    /// Brings the trees to a configuration whose clusters may have other names than those of the last update.
    fn update_renamed(
        &mut self,
        config: &Shared<Config>,
        reports: &BTreeMap<Address, State>,
        now: Time,
        changed: &[Address],
    ) -> Result<FollowedViews, Memory>
        requires lawful { IsLawfulConfig config.now }
        requires changes { ChangesAt changed.now reports.now.entries self.old }
        ensures step { OnOk result (self.new ≡ forest_after now reports.now.entries config.now.clusters self.old) }
        ensures views { IfOk result (λ followed. followed.seen.views ≡ views_of self.new.clusters) }
        ensures changed { IfOk result (λ followed. MarkChanges followed.seen.changed self.old.clusters self.new.clusters) }
        ensures anew { IfOk result (λ followed. StandBut followed.anew self.old.clusters self.new.clusters) }
        ensures pickable { IfOk result (λ followed. ArePickable followed.seen.views) }
        ensures updated { OnOk result (IsUpdatedWith reports.now.entries self.new) }
    {
        let entries = config.get().clusters.as_blocks();
        let readers = marks_of(self.alloc, &self.index.users, changed, self.clusters.len())?;
        let next = self.clusters_after(reports, now, entries, &readers)?;
        let before = mem::replace(&mut self.seen, BlockList::new(self.alloc));
        let views = views_after(self.alloc, &before, &next.clusters, &next.anew)?;
        let seen = views.share(self.alloc)?;
        self.time = now;
        self.clusters = Vec::new(self.alloc);
        follow_users(self.alloc, &mut self.index.users, &next)?;
        add_new_ends(&mut self.index.ends, &next.clusters, &next.anew)?;
        self.clusters = next.clusters;
        self.seen = seen;
        Ok(FollowedViews {
            seen: UpdatedViews {
                views,
                changed: next.changed,
            },
            anew: next.anew,
        })
    }

    /// Makes anew which clusters read which addresses, where that has grown to more than twice of what it was.
    fn renew_users(&mut self) -> Result<(), Memory>
        requires { All FollowsEntry self.old.clusters }
        ensures { self.new ≡ self.old }
    {
        if self.index.users.has_doubled() {
            self.index.users = users_of(self.alloc, &self.clusters)?;
        }
        Ok(())
    }

    /// Puts the entries of a configuration in the places of the clusters of their names, which keep their trees, and answers
    /// where another one was put. Entries are compared where they are marked, and the others are passed over.
    fn put_entries(&mut self, config: &Shared<Config>, others: &Marks) -> Result<Marks, Memory>
        requires lawful { IsLawfulConfig config.now }
        requires others { EntriesStay others.now self.old.clusters config.now.clusters }
        requires names { map (λ e. e.name) config.now.clusters ≡ map (λ c. c.entry.name) self.old.clusters }
        ensures put { IfOk result (λ put. ArePut put config.now.clusters self.old.clusters self.new.clusters) }
        ensures now { OnOk result (self.new.now ≡ self.old.now) }
    {
        let Trees {
            alloc,
            time,
            clusters,
            index,
            seen,
        } = mem::replace(self, Trees::new(self.alloc));
        let ClusterIndex { users, ends } = index;
        let put = Marks::none(alloc, clusters.len());
        let mut stand = EntriesPut {
            clusters,
            users,
            put,
        };
        put_entries(config.get().clusters.as_blocks(), others, &mut stand)?;
        let EntriesPut {
            clusters,
            users,
            put,
        } = stand;
        *self = Trees {
            alloc,
            time,
            clusters,
            index: ClusterIndex { users, ends },
            seen,
        };
        Ok(put)
    }

    /// Has the clusters take an update in their places, where other entries were put in the marked ones since the last
    /// update, and every address whose state differs from that of the last update is one of `changed`.
    fn step_in_place(
        &mut self,
        reports: &BTreeMap<Address, State>,
        now: Time,
        changed: &[Address],
        put: &Marks,
    ) -> Result<FollowedViews, Memory>
        requires { ChangesBut put.now changed.now reports.now.entries self.old }
        ensures step { OnOk result (self.new ≡ forest_after now reports.now.entries (entries_of self.old.clusters) self.old) }
        ensures views { IfOk result (λ followed. followed.seen.views ≡ views_of self.new.clusters) }
        ensures changed { IfOk result (λ followed. MarkChangesInPlace followed.seen.changed self.old.clusters self.new.clusters) }
        ensures anew { IfOk result (λ followed. StandBut followed.anew self.old.clusters self.new.clusters) }
        ensures put { IfOk result (λ followed. (place : ℕ) → place < length self.old.clusters → get_or put.now place false ≡ true → get_or followed.anew place false ≡ true) }
        ensures pickable { IfOk result (λ followed. ArePickable followed.seen.views) }
        ensures updated { OnOk result (IsUpdatedWith reports.now.entries self.new) }
    {
        let Trees {
            alloc,
            time,
            clusters,
            mut index,
            seen,
        } = mem::replace(self, Trees::new(self.alloc));
        let times = Times {
            last: time,
            this: now,
        };
        let due = index.due_places(alloc, times, changed, put, &clusters)?;
        let unmarked = clusters.len();
        let mut stepped = InPlace {
            clusters,
            ends: index.ends,
            changed: Marks::none(alloc, unmarked),
            anew: Marks::none(alloc, unmarked),
        };
        step_clusters(alloc, reports, now, due, &mut stepped)?;
        let views = views_after(alloc, &seen, &stepped.clusters, &stepped.changed)?;
        *self = Trees {
            alloc,
            time: now,
            clusters: stepped.clusters,
            index: ClusterIndex {
                users: index.users,
                ends: stepped.ends,
            },
            seen: views.share(alloc)?,
        };
        Ok(FollowedViews {
            seen: UpdatedViews {
                views,
                changed: stepped.changed,
            },
            anew: stepped.anew,
        })
    }

    /// Brings the trees to a configuration whose clusters have the names of those of the last update.
    fn update_in_place(
        &mut self,
        next: NextConfig<'_>,
        reports: &BTreeMap<Address, State>,
        now: Time,
        changed: &[Address],
    ) -> Result<FollowedViews, Memory>
        requires lawful { IsLawfulConfig next.config.now }
        requires changes { ChangesAt changed.now reports.now.entries self.old }
        requires others { EntriesStay next.others.now self.old.clusters next.config.now.clusters }
        requires names { map (λ e. e.name) next.config.now.clusters ≡ map (λ c. c.entry.name) self.old.clusters }
        ensures step { OnOk result (self.new ≡ forest_after now reports.now.entries next.entry.config.now.clusters self.old) }
        ensures views { IfOk result (λ followed. followed.seen.views ≡ views_of self.new.clusters) }
        ensures changed { IfOk result (λ followed. MarkChanges followed.seen.changed self.old.clusters self.new.clusters) }
        ensures anew { IfOk result (λ followed. StandBut followed.anew self.old.clusters self.new.clusters) }
        ensures pickable { IfOk result (λ followed. ArePickable followed.seen.views) }
        ensures updated { OnOk result (IsUpdatedWith reports.now.entries self.new) }
    {
        self.renew_users()?;
        let put = self.put_entries(next.config, next.others)?;
        let followed = self.step_in_place(reports, now, changed, &put)?;
        Ok(followed)
    }

    /// Brings the trees to a configuration, to the states that addresses reported last, and to the time in
    /// milliseconds, where every address whose state differs from that of the last update is one of `changed`. It
    /// answers what is seen of each cluster, whether that differs from what was seen of the cluster of its name, and
    /// whether the cluster may be another one than stood at its place. A cluster whose entry is the same as before costs
    /// little, if it reads none of the addresses and none of its timers has ended. Where the clusters aren't renamed, it costs
    /// next to nothing: then entries are compared where `others` marks them alone, and one without a mark is known to be
    /// the one that stood at its place. After want of memory the trees are spent.
    pub fn update(
        &mut self,
        next: NextConfig<'_>,
        reports: &BTreeMap<Address, State>,
        now: Time,
        changed: &[Address],
    ) -> Result<FollowedViews, Memory>
        requires lawful { IsLawfulConfig next.config.now }
        requires changes { ChangesAt changed.now reports.now.entries self.old }
        requires others { EntriesStay next.others.now self.old.clusters next.config.now.clusters }
        requires names { next.is_renamed ≡ false → map (λ e. e.name) next.config.now.clusters ≡ map (λ c. c.entry.name) self.old.clusters }
        ensures step { OnOk result (self.new ≡ forest_after now reports.now.entries next.entry.config.now.clusters self.old) }
        ensures views { IfOk result (λ followed. followed.seen.views ≡ views_of self.new.clusters) }
        ensures changed { IfOk result (λ followed. MarkChanges followed.seen.changed self.old.clusters self.new.clusters) }
        ensures anew { IfOk result (λ followed. StandBut followed.anew self.old.clusters self.new.clusters) }
        ensures pickable { IfOk result (λ followed. ArePickable followed.seen.views) }
        ensures updated { OnOk result (IsUpdatedWith reports.now.entries self.new) }
    {
        if next.is_renamed {
            self.update_renamed(next.config, reports, now, changed)
        } else {
            self.update_in_place(next, reports, now, changed)
        }
    }

    /// The same with the configuration of the last update, where every address whose state differs from
    /// that of the last update is one of these. It is for updates that few clusters read: a cluster that
    /// reads none of the addresses, and of which no timer has ended, costs next to nothing.
    pub fn update_states(
        &mut self,
        reports: &BTreeMap<Address, State>,
        now: Time,
        changed: &[Address],
    ) -> Result<UpdatedViews, Memory>
        requires { ChangesAt changed.now reports.now.entries self.old }
        ensures step { OnOk result (self.new ≡ forest_after now reports.now.entries (entries_of self.old.clusters) self.old) }
        ensures views { IfOk result (λ updated. updated.views ≡ views_of self.new.clusters) }
        ensures changed { IfOk result (λ updated. MarkChangesInPlace updated.changed self.old.clusters self.new.clusters) }
        ensures pickable { IfOk result (λ updated. ArePickable updated.views) }
        ensures updated { OnOk result (IsUpdatedWith reports.now.entries self.new) }
    {
        let put = Marks::none(self.alloc, self.clusters.len());
        let followed = self.step_in_place(reports, now, changed, &put)?;
        Ok(followed.seen)
    }

    /// The localities of the chosen child of a cluster's serving tree (gRFC A27, Envoy's Locality), in their order: a part
    /// of the view's picker names one by its place here. The cluster has its place in the configuration, from 0. There are
    /// none where there is no such place or the cluster has no trees. It answers want of memory alone.
    pub fn localities(&self, cluster: u32) -> Result<Vec<&Locality>, Memory>
        ensures { IfOk result (λ localities. map (λ l. l.now) localities.items ≡ localities_at self.entry.now cluster) }
    {
        match self.clusters.get(cluster as usize) {
            Some(cluster) => served_localities(self.alloc, cluster),
            None => Ok(Vec::new(self.alloc)),
        }
    }
}
