//! Laws of the replies that there are, each the clause of a function without a body.
ghost use Rattle.reply_law.specs.ReplyLaw.{EachHasReply, PinGetsLatest};

/// Over any past each step of an actor has a right reply that refuses no pattern text.
#[tactic(auto, using(crate::proofs::ReplyProofs::each_has_reply))]
pub fn each_has_reply()
    ensures { EachHasReply }
{}

/// Over any past a pin is rightly answered with the number of the latest snapshot, or that there is none.
#[tactic(auto, using(crate::proofs::ReplyProofs::pin_gets_latest))]
pub fn pin_gets_latest()
    ensures { PinGetsLatest }
{}
