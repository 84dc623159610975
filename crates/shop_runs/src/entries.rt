// Entries, which say for each piece of a round whether a crew searched it or passed it.
ghost use Rattle.shop_runs.specs.Entries.{told, Fits, Fits-prop};

use crate::rounds::Round;
use shop_nodes::Sheet;

/// What a crew did with a piece. `Done` holds the sheet of its search. `Passed` says that the crew left piece `number`
/// unsearched, because the sheet of an earlier piece, `by`, has a makespan equal to the opening bound.
#[derive(Drop)]
pub enum Kind<'r> {
    Done(Sheet<'r>),
    Passed { number: usize, by: usize },
}

/// The entry of one piece of `round`: its sheet if a crew searched it, or why a crew left it unsearched.
#[derive(Drop)]
pub struct Entry<'r> {
    pub round: &'r Round<'r>,
    pub kind: Kind<'r>,
    pub ghost fits: { Fits (told round.now) kind } by { Fits-prop (told round.now) kind },
}

impl<'r> Entry<'r> {
    ghost use Rattle.std.specs.Prelude.{◌≡◌};
    ghost use Rattle.shop_runs.specs.Entries.{IsOf, MayPass, number_of};
    ghost use Rattle.shop_runs.specs.declared.entries.Kind.TheVariants.{Done, Passed};

    /// Makes the entry of a searched piece from its sheet.
    pub fn done(round: &'r Round<'r>, sheet: Sheet<'r>) -> Entry<'r>
        requires { IsOf (told round.now) sheet }
        ensures of { result.round.now ≡ round.now }
        ensures kind { result.kind ≡ Done sheet.entry }
    {
        Entry {
            round,
            kind: Kind::Done(sheet),
        }
    }

    /// Makes the entry of piece `number`, left unsearched because the makespan of piece `by` equals the opening bound.
    pub fn passed(round: &'r Round<'r>, number: usize, by: usize) -> Entry<'r>
        requires { MayPass (told round.now) number by }
        ensures of { result.round.now ≡ round.now }
        ensures kind { result.kind ≡ Passed number by }
    {
        Entry {
            round,
            kind: Kind::Passed { number, by },
        }
    }

    /// Returns the number of the entry's piece.
    pub fn number(&self) -> usize
        ensures { result ≡ number_of self.now.kind }
    {
        match &self.kind {
            Kind::Done(sheet) => sheet.number,
            Kind::Passed { number, by: _ } => *number,
        }
    }
}
