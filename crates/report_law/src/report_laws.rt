//! The laws of what is written of a journal, each the clause of a function without a body.
ghost use Rattle.report_law.specs.ReportLaw.{OneReport, OneTotals};

/// The report of the entries of a right history and of the snapshots that it published is the report of the history.
#[tactic(auto, using(crate::proofs::ReportProofs::one_report))]
pub fn one_report()
    ensures { OneReport }
{}

/// The totals of the entries of a right history and of the snapshots that it published are the totals of the history.
#[tactic(auto, using(crate::proofs::ReportProofs::one_totals))]
pub fn one_totals()
    ensures { OneTotals }
{}
