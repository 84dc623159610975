// Puts the entries that workers brought at the numbers of their pieces, and searches the pieces without an entry.
ghost use Rattle.std.specs.Prelude.{◌≡◌, ◌<◌, length, All, IfOk, IsOk, OnOk, IfSome, vec_len};
ghost use Rattle.shop_runs.specs.{Entries.told, Crews.{OneForEach, IsEntryOf}};
ghost use Rattle.shop_workers.specs.{Entries.OfRound, inner.Gathered.{AllOfRound, AreByPiece, Fills, StayFilled}};
ghost use Rattle.shop_workers.specs.inner.Gathered.{HasFilled, AreKept};

use shop_runs::{Entry, PieceSearch, Round};
use std::alloc::{AllocError as NoMemory, Global};

/// Makes a vector with `None` for each piece of `round`. Fails with `NoMemory` if memory runs out.
pub fn none_by_piece<'r>(
    alloc: Global,
    round: &'r Round<'r>,
) -> Result<Vec<Option<Entry<'r>>>, NoMemory>
    ensures len { IfOk result (λ v. vec_len v ≡ length round.now.pieces.items) }
    ensures by_piece { IfOk result (λ v. AreByPiece (told round.now) v.items) }
{
    let mut by_piece = Vec::with_capacity(alloc, round.pieces.len())?;
    for _ in 0..round.pieces.len() {
        by_piece.push(None)?;
    }
    Ok(by_piece)
}

/// Puts `entry` into `by_piece` at the number of its piece, if there is such an index.
fn put<'r>(round: &'r Round<'r>, by_piece: &mut Vec<Option<Entry<'r>>>, entry: Entry<'r>)
    requires of { told entry.round.now ≡ told round.now }
    requires by_piece { AreByPiece (told round.now) by_piece.old.items }
    ensures len { vec_len by_piece.new ≡ vec_len by_piece.old }
    ensures by_piece { AreByPiece (told round.now) by_piece.new.items }
    ensures stays { StayFilled by_piece.old.items by_piece.new.items }
    ensures fills { Fills by_piece.new.items entry.entry }
{
    let number = entry.number();
    if number < by_piece.len() {
        by_piece[number] = Some(entry);
    }
}

/// Puts each of `entries`, from the last to the first, into `by_piece` at the number of its piece, over any entry
/// there.
pub fn put_each<'r>(
    round: &'r Round<'r>,
    by_piece: &mut Vec<Option<Entry<'r>>>,
    mut entries: Vec<Entry<'r>>,
)
    requires entries { OfRound (told round.now) entries.items }
    requires by_piece { AreByPiece (told round.now) by_piece.old.items }
    ensures len { vec_len by_piece.new ≡ vec_len by_piece.old }
    ensures by_piece { AreByPiece (told round.now) by_piece.new.items }
    ensures stays { StayFilled by_piece.old.items by_piece.new.items }
    ensures filled { All (Fills by_piece.new.items) entries.entry.items }
{
    while let Some(entry) = entries.pop() {
        put(round, by_piece, entry);
    }
}

/// Puts each entry that a worker brought into a vector, at the number of its piece. There is `None` for a piece of
/// `round` whose entry no worker brought. Fails with `NoMemory` if memory runs out, here or for a worker.
pub fn put_all<'r>(
    alloc: Global,
    round: &'r Round<'r>,
    mut brought: Vec<Result<Vec<Entry<'r>>, NoMemory>>,
) -> Result<Vec<Option<Entry<'r>>>, NoMemory>
    requires { AllOfRound (told round.now) brought.items }
    ensures granted { OnOk result (All IsOk brought.entry.items) }
    ensures filled { IfOk result (λ v. All (HasFilled v.items) brought.entry.items) }
    ensures len { IfOk result (λ v. vec_len v ≡ length round.now.pieces.items) }
    ensures by_piece { IfOk result (λ v. AreByPiece (told round.now) v.items) }
{
    let mut by_piece = none_by_piece(alloc, round)?;
    while let Some(entries) = brought.pop() {
        put_each(round, &mut by_piece, entries?);
    }
    Ok(by_piece)
}

/// Returns `entry`, which a worker brought for piece `number`, or, if it is `None`, searches the piece.
fn or_search<'r, P: PieceSearch<'r>>(
    alloc: Global,
    searcher: &mut P,
    number: usize,
    entry: Option<Entry<'r>>,
) -> Result<Entry<'r>, NoMemory>
    requires number { number < length (P.searched searcher.old).pieces.items }
    requires entry { IfSome entry (λ e. IsEntryOf (told (P.searched searcher.old)) number e) }
    ensures round { P.searched searcher.new ≡ P.searched searcher.old }
    ensures entry { IfOk result (λ e. IsEntryOf (told (P.searched searcher.old)) number e) }
    ensures kept { IfOk result (λ e. IfSome entry.entry (λ kept. e ≡ kept)) }
{
    match entry {
        Some(entry) => Ok(entry),
        None => {
            let sheet = searcher.search(alloc, number)?;
            Ok(Entry::done(searcher.round(), sheet))
        }
    }
}

/// Returns one entry for each piece of the searcher's round, in number order: takes it from `by_piece`, or searches the
/// piece if there is none. Fails with `NoMemory` if memory runs out.
pub fn complete<'r, P: PieceSearch<'r>>(
    alloc: Global,
    searcher: &mut P,
    mut by_piece: Vec<Option<Entry<'r>>>,
) -> Result<Vec<Entry<'r>>, NoMemory>
    requires len { vec_len by_piece ≡ length (P.searched searcher.old).pieces.items }
    requires by_piece { AreByPiece (told (P.searched searcher.old)) by_piece.items }
    ensures round { P.searched searcher.new ≡ P.searched searcher.old }
    ensures each { IfOk result (λ v. OneForEach (told (P.searched searcher.old)) v.items) }
    ensures kept { IfOk result (λ v. AreKept by_piece.entry.items v.items) }
{
    let mut entries = Vec::with_capacity(alloc, by_piece.len())?;
    for number in 0..by_piece.len() {
        let entry = by_piece[number].take();
        entries.push(or_search(alloc, searcher, number, entry)?)?;
    }
    Ok(entries)
}
