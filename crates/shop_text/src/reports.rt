// Reports.
use shop_model::{Instance, Table};

/// What a report says of a search: the instance and its name; the best table found, which has the instance's shape,
/// and its makespan; a lower bound on the makespan of all feasible tables; the number of open nodes; the rounds done,
/// and the nodes counted in them.
#[derive(Drop)]
pub struct Report<'t> {
    pub name: &'t str,
    pub instance: &'t Instance,
    pub table: &'t Table,
    pub makespan: u64,
    pub bound: u64,
    pub open_nodes: usize,
    pub rounds: u64,
    pub nodes: u64,
}
