//! The configuration and its trees, and what is published of them.
ghost use Rattle.std.specs.Prelude.{◌≡◌, ◌<◌, ◌+◌, ◌^◌, ◌↔◌, ◌∷◌, ℕ, List, Option, Some, None, true, false, IfOk, IfSome, IsTrue, OnOk};
ghost use Rattle.std.specs.Option.{option_or};
ghost use Rattle.xds_config.specs.declared.config.Config.{Config as ConfigValue};
ghost use Rattle.xds_config.specs.Configs.{IsLawfulConfig};
ghost use Rattle.cluster_tree.specs.ClusterUsers.{EntriesStay};
ghost use Rattle.cluster_tree.specs.StandingTrees.{ChangesAt, entries_of};
ghost use Rattle.dep_manager.specs.ShownEntries.{StandAsShown};
ghost use Rattle.call_journal.specs.declared.event.DriverEvent.{DriverEvent as EventValue};
ghost use Rattle.call_journal.specs.declared.reply.DriverReply.{DriverReply};
ghost use Rattle.call_journal.specs.declared.entry.Entry.{Entry as EntryValue};
ghost use Rattle.book_trees.specs.xds_history.Setting.{Setting};
ghost use Rattle.book_trees.specs.xds_history.declared.page.Page.{Page};
ghost use Rattle.book_trees.specs.xds_history.Page.{latest as latest_snapshot, latest_number};
ghost use Rattle.book_trees.specs.xds_history.Pages.{driven, pages};
ghost use Rattle.book_trees.specs.xds_history.Right.{IsNumber};
ghost use Rattle.book_trees.specs.ReportedLaws.{ShowsWhatStands};
ghost use Rattle.book_trees.specs.TreesKept.{AreTreesAt, IsPageOf, cluster_names, clusters_of, reported_in};
ghost use Rattle.book_driver.specs.ShownTrees.{AreConfiguredWith, AreSeen, IsNews, IsSeen, IsShownBy, published_by, stands_with};

use block_list::BlockList;
use book_trees::ReportedTrees;
use book_trees::due_numbers::{differs, due_number};
use call_journal::DriverEvent;
use cluster_tree::{FollowedViews, NextConfig};
use config_compare::{are_same_clusters, have_same_names};
use place_marks::Marks;
use tree_text::ShownTree;
use xc_base::{Memory, Reason, Same, Shared};
use xds_config::Config;

/// The trees, and the configuration whose trees they are.
#[derive(Drop)]
pub struct ConfiguredTrees {
    /// The trees of the clusters.
    pub trees: ReportedTrees,
    /// The configuration, once there is one.
    pub config: Option<Shared<Config>>,
}

/// What is seen of the trees after an entry.
#[derive(Drop)]
pub struct Seen {
    /// What is seen of each cluster, or the reason why it has no trees.
    pub views: BlockList<Result<Shared<ShownTree>, Reason>>,
    /// Whether the configuration or a view differs from before.
    pub differs: bool,
    /// For each cluster, whether it may be another one than stood at its place before, or whether something else may be seen
    /// of it or served by it.
    pub marks: Marks,
    /// Whether clusters of other names may stand at the places than before.
    pub is_renamed: bool,
}

/// What is published at an entry.
#[derive(Drop)]
pub struct Published {
    /// The number of the snapshot.
    pub number: u32,
    /// The configuration.
    pub config: Shared<Config>,
    /// What is seen of each cluster, or the reason why it has no trees.
    pub views: BlockList<Result<Shared<ShownTree>, Reason>>,
    /// For each cluster, whether it may be another one than stood at its place before, or whether something else may be seen
    /// of it or served by it.
    pub marks: Marks,
    /// Whether clusters of other names may stand at the places than before.
    pub is_renamed: bool,
}

/// Whether two configurations are the same. Clusters differ more often than fronts, so they are looked at first; those without a
/// mark are the same.
fn are_same(config: &Config, other: &Config, marks: &Marks) -> bool
    requires { StandAsShown marks.now (Some config.now) other.now }
    ensures { IsTrue result ↔ (config.now ≡ other.now) }
{
    are_same_clusters(&config.clusters, &other.clusters, marks) && config.front.same(&other.front)
}

/// Whether the configuration is the one that stands.
fn stands(config: &Option<Shared<Config>>, new: &Shared<Config>, marks: &Marks) -> bool
    requires { StandAsShown marks.now config.now new.now }
    ensures { IsTrue result ↔ (config.now ≡ Some new.now) }
{
    match config {
        Some(config) => are_same(config.get(), new.get(), marks),
        None => false,
    }
}

/// The configuration that was made, where it isn't the one that stands.
fn news(
    made: Option<Shared<Config>>,
    config: &Option<Shared<Config>>,
    marks: &Marks,
) -> Option<Shared<Config>>
    requires { IfSome made (λ new. StandAsShown marks.now config.now new) }
    ensures { IsNews made config.now result }
{
    let Some(new) = made else {
        return None;
    };
    if stands(config, &new, marks) {
        return None;
    }
    Some(new)
}

/// Whether clusters of other names may stand at the places of a configuration than at those of the one from before, in which
/// each entry without a mark is.
fn is_renamed(before: &Option<Shared<Config>>, config: &Config, marks: &Marks) -> bool
    requires { StandAsShown marks.now before.now config.now }
    ensures { result ≡ false → cluster_names before.now ≡ cluster_names (Some config.now) }
{
    match before {
        Some(before) => !have_same_names(&before.get().clusters, &config.clusters, marks),
        None => true,
    }
}

/// The number of the snapshot that is due.
fn due(latest: Option<u32>, seen: &Option<Seen>) -> Option<u32>
    requires few { IfSome latest (λ n. n + 1 < 2 ^ 32) }
    ensures number { (s : Setting) (event : EventValue) (past : List EntryValue) (config : Option ConfigValue) → AreSeen s event past config seen.now → IfSome config IsLawfulConfig → ShowsWhatStands past (pages s past) → latest ≡ latest_number (pages s past) → IsNumber (stands_with s event past config) (latest_snapshot (pages s past)) result }
{
    match seen {
        Some(seen) => due_number(latest, seen.differs),
        None => None,
    }
}

/// What is published, where there is a number for it.
fn publish(
    number: Option<u32>,
    config: &Option<Shared<Config>>,
    seen: Option<Seen>,
) -> Result<Option<Published>, Memory>
    ensures { IfOk result (λ published. published ≡ published_by number config.now seen) }
{
    match (number, config, seen) {
        (Some(number), Some(config), Some(seen)) => Ok(Some(Published {
            number,
            config: config.share()?,
            views: seen.views,
            marks: seen.marks,
            is_renamed: seen.is_renamed,
        })),
        _ => Ok(None),
    }
}

impl ConfiguredTrees {
    /// Brings the trees to a configuration that isn't the one from before, once an event came.
    fn turn(
        &mut self,
        event: &DriverEvent,
        config: Shared<Config>,
        others: &Marks,
    ) -> Result<Seen, Memory>
        requires lawful { IsLawfulConfig config }
        requires others { EntriesStay others.now self.old.trees.trees.clusters config.clusters }
        requires shown { StandAsShown others.now self.old.config config }
        requires entries { entries_of self.old.trees.trees.clusters ≡ clusters_of self.old.config }
        requires changes { ChangesAt (reported_in event.now) self.old.trees.reports.entries self.old.trees.trees }
        ensures seen { IfOk result (λ seen. (s : Setting) (past : List EntryValue) → AreConfiguredWith s event.now past self.old → (self.old.config ≡ Some config → ⊥) → IsSeen s event.now past config seen) }
        ensures config { OnOk result (self.new.config ≡ Some config) }
        ensures kept { OnOk result ((s : Setting) (past : List EntryValue) (line : ℕ) (reply : DriverReply) (page : Page) → AreConfiguredWith s event.now past self.old → IsPageOf event.now past (pages s past) (Some config) page → AreTreesAt (driven 0 line event.now reply ∷ past) (page ∷ pages s past) self.new.trees) }
    {
        let is_renamed = is_renamed(&self.config, config.get(), others);
        let next = NextConfig {
            config: &config,
            others,
            is_renamed,
        };
        let FollowedViews { seen, anew } = self.trees.follow(event, next)?;
        self.config = Some(config);
        Ok(Seen {
            views: seen.views,
            differs: true,
            marks: anew,
            is_renamed,
        })
    }

    /// Lets the trees take an event, where there is a configuration and it stays.
    fn stand(&mut self, event: &DriverEvent) -> Result<Seen, Memory>
        requires { ChangesAt (reported_in event.now) self.old.trees.reports.entries self.old.trees.trees }
        ensures seen { IfOk result (λ seen. (s : Setting) (past : List EntryValue) (config : ConfigValue) → AreConfiguredWith s event.now past self.old → self.old.config ≡ Some config → IsSeen s event.now past config seen) }
        ensures config { self.new.config ≡ self.old.config }
        ensures kept { OnOk result ((s : Setting) (past : List EntryValue) (config : ConfigValue) (line : ℕ) (reply : DriverReply) (page : Page) → AreConfiguredWith s event.now past self.old → self.old.config ≡ Some config → IsPageOf event.now past (pages s past) (Some config) page → AreTreesAt (driven 0 line event.now reply ∷ past) (page ∷ pages s past) self.new.trees) }
    {
        let seen = self.trees.stay(event)?;
        Ok(Seen {
            views: seen.views,
            differs: differs(false, &seen.changed),
            marks: seen.changed,
            is_renamed: false,
        })
    }

    /// Lets the trees take an event, where the configuration stays, if there is one.
    fn stay(&mut self, event: &DriverEvent) -> Result<Option<Seen>, Memory>
        requires { ChangesAt (reported_in event.now) self.old.trees.reports.entries self.old.trees.trees }
        ensures seen { IfOk result (λ seen. (s : Setting) (past : List EntryValue) → AreConfiguredWith s event.now past self.old → AreSeen s event.now past self.old.config seen) }
        ensures config { self.new.config ≡ self.old.config }
        ensures kept { OnOk result ((s : Setting) (past : List EntryValue) (line : ℕ) (reply : DriverReply) (page : Page) → AreConfiguredWith s event.now past self.old → IsPageOf event.now past (pages s past) self.old.config page → AreTreesAt (driven 0 line event.now reply ∷ past) (page ∷ pages s past) self.new.trees) }
    {
        if self.config.is_none() {
            return Ok(None);
        }
        let seen = self.stand(event)?;
        Ok(Some(seen))
    }

    /// Lets the trees follow, once an event came: to the configuration that was made, if any was, else with the one that
    /// stands. It answers what is seen of them. It fails for want of memory alone, and then nothing is said of what is kept.
    fn follow(
        &mut self,
        event: &DriverEvent,
        made: Option<Shared<Config>>,
        others: &Marks,
    ) -> Result<Option<Seen>, Memory>
        requires lawful { IfSome made IsLawfulConfig }
        requires changes { ChangesAt (reported_in event.now) self.old.trees.reports.entries self.old.trees.trees }
        requires entries { entries_of self.old.trees.trees.clusters ≡ clusters_of self.old.config }
        requires others { IfSome made (λ config. StandAsShown others.now self.old.config config) }
        ensures seen { IfOk result (λ seen. (s : Setting) (past : List EntryValue) → AreConfiguredWith s event.now past self.old → AreSeen s event.now past (option_or made self.old.config) seen) }
        ensures config { OnOk result (self.new.config ≡ option_or made self.old.config) }
        ensures kept { OnOk result ((s : Setting) (past : List EntryValue) (line : ℕ) (reply : DriverReply) (page : Page) → AreConfiguredWith s event.now past self.old → IsPageOf event.now past (pages s past) (option_or made self.old.config) page → AreTreesAt (driven 0 line event.now reply ∷ past) (page ∷ pages s past) self.new.trees) }
    {
        match news(made, &self.config, others) {
            Some(config) => {
                let seen = self.turn(event, config, others)?;
                Ok(Some(seen))
            }
            None => {
                let seen = self.stay(event)?;
                Ok(seen)
            }
        }
    }

    /// Lets the trees follow, once an event came, and answers what is published: something, exactly where a snapshot is due
    /// (gRFC A74). The configuration is the one that was made, if any was, else the one that stands. With it come marks: an entry
    /// without one stood at its place in the configuration that stands, and isn't compared. It fails for want of memory alone,
    /// and then nothing is said of what is kept.
    pub fn show(
        &mut self,
        event: &DriverEvent,
        made: Option<Shared<Config>>,
        others: &Marks,
        latest: Option<u32>,
    ) -> Result<Option<Published>, Memory>
        requires lawful { IfSome made IsLawfulConfig }
        requires before { IfSome self.old.config IsLawfulConfig }
        requires changes { ChangesAt (reported_in event.now) self.old.trees.reports.entries self.old.trees.trees }
        requires entries { entries_of self.old.trees.trees.clusters ≡ clusters_of self.old.config }
        requires others { IfSome made (λ config. StandAsShown others.now self.old.config config) }
        requires few { IfSome latest (λ n. n + 1 < 2 ^ 32) }
        ensures published { IfOk result (λ published. (s : Setting) (past : List EntryValue) → AreConfiguredWith s event.now past self.old → ShowsWhatStands past (pages s past) → latest ≡ latest_number (pages s past) → IsShownBy s event.now past (option_or made self.old.config) published) }
        ensures config { OnOk result (self.new.config ≡ option_or made self.old.config) }
        ensures lawful { OnOk result (IfSome self.new.config IsLawfulConfig) }
        ensures kept { OnOk result ((s : Setting) (past : List EntryValue) (line : ℕ) (reply : DriverReply) (page : Page) → AreConfiguredWith s event.now past self.old → IsPageOf event.now past (pages s past) (option_or made self.old.config) page → AreTreesAt (driven 0 line event.now reply ∷ past) (page ∷ pages s past) self.new.trees) }
    {
        let seen = self.follow(event, made, others)?;
        let number = due(latest, &seen);
        let published = publish(number, &self.config, seen)?;
        Ok(published)
    }
}
