// Plans, rounds and their outcomes, the contracts of a crew and of a searcher, and runs of rounds by any crew.
#![tactic(auto)]

mod bound_maps;
mod bound_rows;
mod crews;
mod cuts;
mod distant_nodes;
mod entries;
mod kept_stacks;
mod laws;
mod machine_orders;
mod open_nodes;
mod outcomes;
mod plans;
mod rounds;
mod runs;
mod stacks;
mod standings;

pub use crews::{Crew, MakesCrew, PieceSearch};
pub use entries::{Entry, Kind};
pub use laws::{
    answers_are_trustworthy, counts_stay_small, cuts_cover, gathering_covers,
    more_rounds_are_no_worse, opening_covers, pieces_are_all, rounds_keep_the_cover, searches_end,
    solved_stays,
};
pub use outcomes::gather;
pub use plans::{
    MAX_BUDGET, MAX_PIECE, MAX_ROUNDS, MAX_WORKERS, ORDER_WORDS, ORDERS, Order, Plan, Workers,
};
pub use rounds::Round;
pub use runs::{Answer, run};
pub use standings::Standing;
