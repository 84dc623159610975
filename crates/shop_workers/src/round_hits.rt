// For contracts: which pieces of a round have a makespan equal to the opening bound.
use shop_runs::Round;
use std::marker::Model;

/// At run time the round; in contracts a list that says for each piece whether its makespan equals the opening bound.
#[derive(Drop)]
pub struct RoundHits<'r> {
    pub(crate) round: &'r Round<'r>,
}

impl<'r> Model for RoundHits<'r> {
    ghost use Rattle.std.specs.Prelude.{List, Bool};
    ghost use Rattle.shop_runs.specs.Hits.{hits_of_round};

    ghost Value = { List Bool };

    ghost view = { λ h. hits_of_round h.round.now };
}
