// Nodes, their children, and the sheets that searches of pieces return, with their laws. No code here searches.
#![tactic(auto)]

mod child_nodes;
mod conflicts;
mod halts;
mod laws;
mod left;
mod nodes;
mod pieces;
mod sheets;

pub use child_nodes::children;
pub use conflicts::conflict;
pub use halts::{Halt, Open, Pending};
pub use laws::{branching_loses_no_table, searches_lose_no_table};
pub use left::Left;
pub use nodes::{Node, SharedNode};
pub use pieces::Piece;
pub use sheets::Sheet;
