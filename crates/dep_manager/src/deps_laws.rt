//! Laws of what is reached, each the clause of a function without a body.
ghost use Rattle.std.specs.Prelude.{◌≡◌, ◌↔◌, List, true};
ghost use Rattle.xc_base.specs.declared.names.Key.{Key};
ghost use Rattle.xds_cache.specs.declared.fate.Known.{Known};
ghost use Rattle.config_assembly.specs.Orders.{Name};
ghost use Rattle.config_assembly.specs.ReachedResources.{Resources};
ghost use Rattle.config_assembly.specs.Reach.{reach};
ghost use Rattle.dep_manager.specs.Laws.{AgreeAt, IsReached, IsSame, with_fates};
ghost use Rattle.config_assembly.specs.Watching.{has_key};

/// What is reached, awaited and configured rests on what is known of the reached keys alone.
pub fn fates_of_reached_keys_decide()
    ensures { (r : Resources) (references : List Name) (fate : Key → Known) → AgreeAt (reach r references) r.fate fate → IsSame r (with_fates r fate) references }
{}

/// A key is reached exactly where it is the listener's, that of the Route resource that the listener names, that
/// of a cluster on a chain of at most 16 from the front's host or from a reference, or that of its endpoints.
pub fn reached_by_chains()
    ensures { (r : Resources) (references : List Name) (key : Key) → (has_key (reach r references) key ≡ true) ↔ IsReached r references key }
{}
