//! What a channel is of.
use std::marker::Brand;

/// Names what a channel is of: the plan of its actors, if it has one, the archive of its snapshots, its bootstrap and its
/// target. It has no call, and nothing of it is there at run time: whoever calls a function that is generic over it says
/// there what it names.
pub trait Job {
    ghost use Rattle.std.specs.Prelude.{List, Option};
    ghost use Rattle.boxcar.specs.Table.{Shelves};
    ghost use Rattle.call_journal.specs.declared.plan.Listed.{Listed};
    ghost use Rattle.xds_bootstrap.specs.declared.bootstrap.Bootstrap.{Bootstrap};
    ghost use Rattle.xds_name.specs.declared.target.Target.{Target};

    /// The listed events of each actor, the driver's first.
    ghost plan: { Option (List (List Listed)) };

    /// The archive into which snapshots are pushed.
    ghost archive: { Shelves };

    /// The bootstrap of the channel.
    ghost boot: { Bootstrap };

    /// The target of the channel.
    ghost target: { Target };
}

impl Job for Brand {
    ghost use Rattle.std.specs.Prelude.{None};
    ghost use Rattle.xds_book.specs.BookViews.{no_archive, no_bootstrap, no_target};

    ghost plan = { None };

    ghost archive = { no_archive };

    ghost boot = { no_bootstrap };

    ghost target = { no_target };
}
