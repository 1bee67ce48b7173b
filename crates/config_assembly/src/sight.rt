//! What an update looks at.
ghost use Rattle.std.specs.Prelude.{◌≡◌, IfOk};
ghost use Rattle.xds_cache.specs.KeptFates.{shown};
ghost use Rattle.config_assembly.specs.ReachedResources.{IsLawfulOf};
ghost use Rattle.config_assembly.specs.DepsViews.{seen};

use std::alloc::Global;
use std::sync::ledger::Ledger;
use xc_base::{Key, Kind, Memory, Steps, Text};
use xds_bootstrap::Bootstrap;
use xds_cache::{Cache, Fate};
use xds_name::{Target, name_key};

/// The channel's target, its authorities, and what is known of each key.
#[derive(Clone, Copy)]
pub struct Sight<'a> {
    /// Where lists are made.
    pub alloc: Global,
    /// The listener's key and the text for which a virtual host is chosen.
    pub target: &'a Target,
    /// The authorities of names.
    pub boot: &'a Bootstrap,
    /// What is known of each watched key.
    pub cache: &'a Cache,
}

impl<'a> Sight<'a> {
    /// The key of a name.
    pub fn key(self, kind: Kind, name: &Text) -> Result<Key, Memory>
        ensures { IfOk result (λ key. key ≡ (seen self.entry).key kind name.now) }
    {
        name_key(self.alloc, self.boot, kind, name)
    }

    /// What is known of the resource of a name.
    pub fn fate<L: Ledger>(
        self,
        kind: Kind,
        name: &Text,
        steps: &mut Steps<L>,
    ) -> Result<Fate<'a>, Memory>
        ensures fate { IfOk result (λ fate. shown fate ≡ (seen self.entry).fate ((seen self.entry).key kind name.now)) }
        ensures lawful { IfOk result (λ fate. IsLawfulOf kind (shown fate)) }
    {
        let key = self.key(kind, name)?;
        Ok(self.cache.get(&key, steps))
    }

    /// What is known of the listener.
    pub fn listener<L: Ledger>(self, steps: &mut Steps<L>) -> Fate<'a>
        ensures fate { shown result ≡ (seen self.entry).fate (seen self.entry).target.key }
        ensures lawful { IsLawfulOf (seen self.entry).target.key.kind (shown result) }
    {
        self.cache.get(&self.target.key, steps)
    }
}
