// Tables of starts.
ghost use Rattle.std.specs.Prelude.{◌≡◌, ◌<◌, ◌≤◌, ◌↔◌, IsTrue, IsNone, IfSome, All};
ghost use Rattle.std.specs.Prelude.{[], length, map, slice_get, slice_index_or};
ghost use Rattle.shop_model.specs.Limits.{AreStarts};

use crate::limits::MAX_START;
use std::marker::Model;

/// A table of starts, one row a job, in units of time. No start is over `MAX_START`.
#[derive(Drop)]
pub struct Table {
    rows: Vec<Vec<u64>>,
}

impl Model for Table {
    ghost use Rattle.std.specs.Prelude.{List, ℕ, map};
    ghost use Rattle.shop_model.specs.Limits.{AreStarts};

    ghost Value = { List (List ℕ) };

    ghost view = { λ a. map (λ r. r.items) a.rows.items };

    ghost invariant = { λ a. AreStarts (map (λ r. r.items) a.rows.items) };
}

/// Returns whether no start of `row` is over `MAX_START`.
fn is_row_within(row: &[u64]) -> bool
    ensures { IsTrue result ↔ All (λ s. s ≤ MAX_START) row.now }
{
    row.iter().all(|&start| start <= MAX_START)
}

impl Table {
    /// Makes the table of `rows`, one for each job. Requires starts of at most `MAX_START`.
    pub fn of_checked(rows: Vec<Vec<u64>>) -> Table
        requires { AreStarts (map (λ r. r.items) rows.items) }
        ensures { result ≡ map (λ r. r.items) rows.items }
    {
        Table { rows }
    }

    /// Makes the table of `rows`, one for each job; `None` if a start is over `MAX_START`. For library callers: the
    /// program's readers and `place` keep to `MAX_START` on the way.
    pub fn new(rows: Vec<Vec<u64>>) -> Option<Table>
        ensures none { IsNone result ↔ (AreStarts (map (λ r. r.items) rows.items) → ⊥) }
        ensures some { IfSome result (λ t. t ≡ map (λ r. r.items) rows.items) }
    {
        for row in &rows {
            if !is_row_within(row.as_slice()) {
                return None;
            }
        }
        Some(Table::of_checked(rows))
    }

    /// States for proofs: no start of a table is over `MAX_START`. Does nothing.
    pub fn keeps_limits(&self)
        ensures { AreStarts self.now }
    {
        let _rows = &self.rows;
    }

    /// The number of rows.
    pub fn len(&self) -> usize
        ensures { result ≡ length self.now }
    {
        self.rows.len()
    }

    /// Returns when step `k` of job `j` begins, in units of time; `None` if the table has no such start. For library
    /// callers: the program doesn't use `start`.
    pub fn start(&self, j: usize, k: usize) -> Option<u64>
        ensures { result ≡ slice_get (slice_index_or self.now j []) k }
    {
        if j >= self.len() {
            return None;
        }
        self.row(j).get(k).copied()
    }

    /// The starts of job `j`, in order of its steps. Requires a job with a row in the table.
    pub fn row(&self, j: usize) -> &[u64]
        requires { j < length self.now }
        ensures row { result.now ≡ slice_index_or self.now j [] }
        ensures limits { AreStarts self.now }
    {
        self.rows[j].as_slice()
    }
}
