//! Where the lanes of actors are between their turns.
use session_player::{Job, Lane, Pinned};
use std::marker::Model;
use turn_steps::GatedLine;

/// The token of a pin that is up, with the line in which its call starts.
#[derive(Drop)]
pub struct UpCall<J: Job> {
    pub(crate) token: Pinned<J>,
    pub(crate) at: GatedLine,
}

impl<J: Job> Model for UpCall<J> {
    ghost use Rattle.turn_player.specs.TurnPlans.{UpView};

    ghost Value = { UpView };

    ghost view = { λ u. record { token = u.token; line = u.at.line; after = u.at.after } };
}

/// The lane of one actor, and the pin of its call if one is up.
#[derive(Drop)]
pub struct Seat<J: Job> {
    pub(crate) lane: Lane<J>,
    pub(crate) up: Option<UpCall<J>>,
}

impl<J: Job> Model for Seat<J> {
    ghost use Rattle.turn_player.specs.TurnPlans.{IsSeat, SeatView};

    ghost Value = { SeatView };

    ghost view = { λ s. record { lane = s.lane; up = s.up } };

    ghost invariant = { λ s. IsSeat J.plan (record { lane = s.lane; up = s.up }) };
}
