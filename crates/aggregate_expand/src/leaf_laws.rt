//! Laws of the leaves, each a call that does nothing.
ghost use Rattle.std.specs.Prelude.{◌≡◌};
ghost use Rattle.aggregate_expand.specs.LookedUp.{Name};
ghost use Rattle.aggregate_expand.specs.Chains.{Table};
ghost use Rattle.aggregate_expand.specs.LeafLaws.{AreLedTo, AgreeOnChains};
ghost use Rattle.aggregate_expand.specs.Leaves.{leaves_of};

/// What is computed from the table is the one list of the leaves to which lists of child places lead, each
/// by its least list.
pub fn leaves_are_led_to()
    ensures { (table : Table) (cluster : Name) → AreLedTo table cluster }
{}

/// What a cluster stands for depends on the clusters of its chains alone.
pub fn leaves_rest_on_chains()
    ensures { (table other : Table) (cluster : Name) → AgreeOnChains table other cluster → leaves_of other cluster ≡ leaves_of table cluster }
{}
