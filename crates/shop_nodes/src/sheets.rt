// The result of the search of a piece.
ghost use Rattle.std.specs.Prelude.{◌≡◌, ◌≤◌};
ghost use Rattle.shop_nodes.specs.{Laws.AreWords, Pieces.IsSheet};

use crate::left::Left;
use crate::pieces::Piece;
use shop_model::{Instance, Word};

/// The result of the search of a piece: the last word found, the makespan, the nodes left in order, and how many nodes
/// were taken, at most `budget`. The makespan is `best`, the opening one, if no word was found. The definition `sheet`
/// gives the same result for the instance, the piece, `best` and `budget`.
#[derive(Drop)]
pub struct Sheet<'r> {
    pub number: usize,
    pub found: Option<Word>,
    pub makespan: u64,
    pub left: Left<'r>,
    pub taken: u64,
    pub instance: &'r Instance,
    pub piece: &'r Piece,
    pub best: u64,
    pub budget: u64,
    pub ghost of_piece: { number ≡ piece.now.number },
    pub ghost spent: { taken ≤ budget },
    pub ghost left_of: { left.shop ≡ instance.now },
    pub ghost left_below: { left.makespan ≡ makespan },
    pub ghost words_left: { AreWords instance.now left.words },
    pub ghost is_sheet: { IsSheet instance.now piece.now best budget
        found makespan left.words taken },
}
