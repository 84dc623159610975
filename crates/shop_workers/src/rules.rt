// For proofs: the law that a board keeps between any two steps, and what a seat learns from each step that it takes.
ghost use Rattle.shop_workers.specs.{Moments.IsLawful, Moves.{newcomer, empty_handed, joined}};
ghost use Rattle.shop_workers.specs.inner.Steps.{Claims, Looks, Marks, Recalls, spent};

use crate::round_hits::RoundHits;
use crate::views::View;
use atomic_table::{Join, Play, Split, TableRule};

pub struct Law;

impl<'r> TableRule<(), View, RoundHits<'r>> for Law {
    ghost holds = { IsLawful };

    ghost first = { newcomer };
}

pub struct Claim;

impl Play<(), View> for Claim {
    ghost then = { Claims };
}

pub struct Look;

impl Play<(), View> for Look {
    ghost then = { Looks };
}

pub struct Mark;

impl Play<(), View> for Mark {
    ghost then = { Marks };
}

pub struct Recall;

impl Play<(), View> for Recall {
    ghost then = { Recalls };
}

pub struct Share;

impl Split<View> for Share {
    ghost left = { λ v. v };

    ghost right = { empty_handed };
}

impl Join<View> for Share {
    ghost both = { joined };

    ghost spent = { spent };
}
