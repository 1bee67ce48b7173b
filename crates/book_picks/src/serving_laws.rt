//! What is kept of the trees tells what `renew` asks for, and where it isn't called.
ghost use Rattle.book_picks.specs.ServingLaws.{MarksTellServed, QuietLeavesTurns, TreesServeAll};

/// The kept trees have the localities that are served.
pub fn trees_serve_all()
    ensures { TreesServeAll }
{}

/// The marks of what is seen tell of which clusters something else is served, where the configuration stays.
pub fn marks_tell_served()
    ensures { MarksTellServed }
{}

/// A driver's entry at which nothing is published leaves what is kept.
pub fn quiet_leaves()
    ensures { QuietLeavesTurns }
{}
