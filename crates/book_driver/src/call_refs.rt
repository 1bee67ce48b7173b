//! What the driver is handed of calls.
ghost use Rattle.std.specs.Prelude.{◌≡◌, List, IfOk, IfSome, IsTrue};
ghost use Rattle.xds_bootstrap.specs.declared.bootstrap.AuthorityEntry.{AuthorityEntry as AuthorityValue};
ghost use Rattle.xds_cache.specs.KeptFates.{Watched};
ghost use Rattle.dep_manager.specs.KeptAssemblies.{IsRightBy};
ghost use Rattle.dep_manager.specs.ServedCalls.{IsServing, Serves};
ghost use Rattle.book_trees.specs.xds_history.declared.page.Page.{Page as PageValue};
ghost use Rattle.book_trees.specs.xds_history.References.{references, references_seen};
ghost use Rattle.book_driver.specs.ReferredClusters.{AreReferredAt};

use cluster_refs::Refs;
use dep_manager::Deps;
use std::alloc::Global;
use xc_base::Memory;

/// What calls refer to.
#[derive(Clone, Copy)]
pub struct CallRefs<'a> {
    /// The lists of clusters that calls have pinned and the clusters that they hold.
    pub refs: &'a Refs,
    /// Whether these may be other clusters than at the driver's last entry.
    pub may_differ: bool,
}

impl<'a> CallRefs<'a> {
    /// Whether what the last update made is known to serve these calls without a list of what they refer to: they refer to what
    /// they referred to at the driver's last entry, or no cluster of the configuration that was handed out last is there for
    /// calls alone. It takes no memory.
    pub fn are_known_served(self, deps: &Deps) -> bool
        ensures { IsTrue result → (entries : List AuthorityValue) (known : Watched) (ps : List PageValue) → IsRightBy entries known deps.now → AreReferredAt ps deps.now.shown self.entry → IfSome deps.now.last (Serves (references_seen ps)) → IfSome deps.now.last (Serves (references ps)) }
    {
        if !self.may_differ {
            return true;
        }
        deps.serves_its_host()
    }

    /// Whether what the last update made serves these calls. What they refer to is listed and looked up where it can't be known
    /// without.
    pub fn are_served(self, alloc: Global, deps: &Deps) -> Result<bool, Memory>
        ensures served { IfOk result (λ served. IsTrue served → (entries : List AuthorityValue) (known : Watched) (ps : List PageValue) → IsRightBy entries known deps.now → AreReferredAt ps deps.now.shown self.entry → IfSome deps.now.last (Serves (references_seen ps)) → IfSome deps.now.last (Serves (references ps))) }
        ensures stay { IfOk result (λ served. (entries : List AuthorityValue) (known : Watched) (ps : List PageValue) → IsRightBy entries known deps.now → AreReferredAt ps deps.now.shown self.entry → IsServing deps.now (references_seen ps) → references ps ≡ references_seen ps → IsTrue served) }
    {
        if self.are_known_served(deps) {
            return Ok(true);
        }
        let names = self.refs.retained()?;
        let served = deps.serves(alloc, &names)?;
        Ok(served)
    }
}
