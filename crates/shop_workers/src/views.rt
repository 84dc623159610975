// What a seat knows of its board, for contracts.
use std::collections::LinkedList;

/// What a seat knows, for contracts alone; no code makes a `View`. A seat is `live` until it is joined to another.
/// `hits` says which pieces have a makespan equal to the opening bound. `mine` holds the pieces that the seat won,
/// `seen` those that it saw claimed, `done` those that it marked. `low` is the least number that it read or marked.
pub struct View {
    pub live: bool,
    pub hits: LinkedList<bool>,
    pub mine: LinkedList<u64>,
    pub seen: LinkedList<u64>,
    pub done: LinkedList<u64>,
    pub low: u64,
}
