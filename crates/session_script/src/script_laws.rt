//! Laws of the grammar of sessions.
ghost use Rattle.session_script.specs.Table.{FaultsAreInOrder, FormsAreListed};

/// Words have at most one of the nine forms, and it is the one that is found.
pub fn forms_are_listed()
    ensures { FormsAreListed }
{}

/// A line from line 5 on is refused where a row of the table of faults holds, with the first such cause, and
/// nowhere else.
pub fn faults_are_in_order()
    ensures { FaultsAreInOrder }
{}
