// Pieces: numbered lists of nodes, each for one search.
ghost use Rattle.std.specs.Prelude.{◌≡◌};

use crate::nodes::Node;

/// A numbered list of nodes that one search takes in turn.
#[derive(Drop)]
pub struct Piece {
    pub number: usize,
    pub nodes: Vec<Node>,
}

impl Piece {
    /// Makes the piece of `number` and `nodes`.
    pub fn new(number: usize, nodes: Vec<Node>) -> Piece
        ensures { result ≡ record { number = number; nodes = nodes } }
    {
        Piece { number, nodes }
    }
}
