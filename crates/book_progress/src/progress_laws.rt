//! Laws of counts and plans.
ghost use Rattle.book_progress.specs.PlayedPlans.{PlayGoesOn};
ghost use Rattle.book_progress.specs.ProgressKept.{CountsAreFew};

/// An actor counts no more events and pins than there are entries.
#[tactic(auto, using(crate::proofs::CountLemmas::counts_are_few))]
pub fn counts_are_few()
    ensures { CountsAreFew }
{}

/// An entry that is the next one of its actor goes on playing the plan.
#[tactic(auto, using(crate::proofs::PlayLemmas::play_goes_on))]
pub fn play_goes_on()
    ensures { PlayGoesOn }
{}
