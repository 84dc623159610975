// The table that a word places.
ghost use Rattle.std.specs.Prelude.{◌≡◌, [], IfOk, length, map, replicate};
ghost use Rattle.shop_model.specs.{Word.{IsFull, placed, rows_of}, Placed.{IsPlacedBy, AllEndSoon}};

use crate::instances::Instance;
use crate::placements::Placement;
use crate::tables::Table;
use crate::words::Word;
use std::alloc::{AllocError as NoMemory, Global};

/// Makes an empty row for each job, with room for its steps. Fails with `NoMemory` if memory runs out.
fn empty_rows(alloc: Global, instance: &Instance) -> Result<Vec<Vec<u64>>, NoMemory>
    ensures { IfOk result (λ v. map (λ r. r.items) v.items ≡ replicate (length instance.now.jobs) []) }
{
    let mut rows = Vec::with_capacity(alloc, instance.jobs())?;
    for j in 0..instance.jobs() {
        rows.push(Vec::with_capacity(alloc, instance.route(j).len())?)?;
    }
    Ok(rows)
}

/// Makes the table that `word`, a full word, places: in the order of the word, each operation begins at the greater of
/// the end of the step before it (its job's release if there is none) and the ends of the operations before it on its
/// machine (semi-active schedule). Fails with `NoMemory` if memory runs out.
pub fn place(alloc: Global, instance: &Instance, word: &Word) -> Result<Table, NoMemory>
    requires { IsFull instance.now word.now }
    ensures table { IfOk result (λ t. t ≡ rows_of instance.now (placed instance.now word.now)) }

    // It is feasible, lies under the word and each of its beginnings, and ends at the greatest placed end.
    ensures law { IfOk result (λ t. IsPlacedBy instance.now word.now t) }
    ensures ends { IfOk result (λ t. AllEndSoon instance.now t) }
{
    let mut placement = Placement::none(alloc, instance)?;
    let mut rows = empty_rows(alloc, instance)?;
    for index in 0..word.len() {
        let j = word.job(index);
        let start = placement.place_next(instance, j);
        rows[j].push(start)?;
    }
    instance.keeps_limits();
    Ok(Table::of_checked(rows))
}
