//! Rows that go and come while a database changes: those that do both stay as they are.

ghost use Rattle.std.specs.Prelude.{◌≡◌, ◌<◌, ◌++◌, ◌∷◌, [], true, length, drop, map, OnOk, IfOk};
ghost use Rattle.rpm_db.specs.Prelude.{AreInOrder, AreNetted, is_row_before, no_row_changes, row_nth, row_of, same_row, SameRows};

use rpm_hindex::Rows;
use std::alloc::{AllocError, Global};

/// The rows that an index is to drop, and those that it is to add.
#[derive(Drop)]
pub struct RowChange {
    pub drops: Rows,
    pub adds: Rows,
}

impl RowChange {
    /// No row goes, and none comes.
    pub(crate) fn none(alloc: Global) -> RowChange
        ensures { result ≡ no_row_changes }
    {
        RowChange {
            drops: Rows::new(alloc),
            adds: Rows::new(alloc),
        }
    }
}

/// Where a row stands in order: by number, kind and place, and then by its key.
#[derive(Clone, Copy, PartialEq, Eq, PartialOrd, Ord)]
struct Standing<'a> {
    number: u32,
    kind: u8,
    place: u32,
    key: &'a [u8],
}

/// Where row i stands.
fn stands_at(rows: &Rows, i: usize) -> Standing<'_>
    requires { i < length rows.now }
    ensures { row_of result ≡ row_nth rows.now i }
{
    let head = rows.head(i);
    Standing {
        number: head.number,
        kind: head.kind,
        place: head.place,
        key: rows.key(i),
    }
}

/// Whether row i of these comes before row j of others.
fn comes_first(rows: &Rows, i: usize, others: &Rows, j: usize) -> bool
    requires i { i < length rows.now }
    requires j { j < length others.now }
    ensures { result ≡ is_row_before (row_nth rows.now i) (row_nth others.now j) }
{
    stands_at(rows, i).cmp(&stands_at(others, j)).is_lt()
}

/// Whether row i of these is row j of others.
fn is_shared(rows: &Rows, i: usize, others: &Rows, j: usize) -> bool
    requires i { i < length rows.now }
    requires j { j < length others.now }
    ensures { result ≡ same_row (row_nth rows.now i) (row_nth others.now j) }
{
    let row = rows.head(i);
    let other = others.head(j);
    row.kind == other.kind
        && row.place == other.place
        && row.number == other.number
        && rows.key(i) == others.key(j)
}

/// Adds row i of others.
fn push_row(rows: &mut Rows, others: &Rows, i: usize) -> Result<(), AllocError>
    requires { i < length others.now }
    ensures { OnOk result (rows.new ≡ rows.old ++ row_nth others.now i ∷ []) }
{
    let head = others.head(i);
    rows.add(head.kind, others.key(i), head.number, head.place)
}

/// Adds the rows of others from this one on.
fn push_rest(rows: &mut Rows, others: &Rows, from: usize) -> Result<(), AllocError>
    ensures { OnOk result (rows.new ≡ rows.old ++ drop from others.now) }
{
    for i in from..others.len() {
        push_row(rows, others, i)?;
    }
    Ok(())
}

/// The same rows once more.
pub fn copy_of(alloc: Global, rows: &Rows) -> Result<Rows, AllocError>
    ensures { IfOk result (λ copy. copy ≡ rows.now) }
{
    let mut copy = Rows::new(alloc);
    push_rest(&mut copy, rows, 0)?;
    Ok(copy)
}

/// Whether no row comes before the one in front of it.
fn are_in_order(rows: &Rows) -> bool
    ensures { result ≡ true → AreInOrder rows.now }
{
    for i in 1..rows.len() {
        if comes_first(rows, i, rows, i - 1) {
            return false;
        }
    }
    true
}

/// Where each row stands.
fn standings(alloc: Global, rows: &Rows) -> Result<Vec<Standing<'_>>, AllocError>
    ensures { IfOk result (λ all. map row_of all.items ≡ rows.now) }
{
    let mut all = Vec::with_capacity(alloc, rows.len())?;
    for i in 0..rows.len() {
        all.push(stands_at(rows, i))?;
    }
    Ok(all)
}

/// Adds a row where it stands. No row has a key of 256 MiB, or a kind above 15: it answers as if there were no memory
/// for one.
fn push_standing(rows: &mut Rows, row: Standing<'_>) -> Result<(), AllocError>
    ensures { OnOk result (rows.new ≡ rows.old ++ row_of row.entry ∷ []) }
{
    if row.kind > 15 || row.key.len() >= 268_435_456 {
        return Err(AllocError);
    }
    rows.add(row.kind, row.key, row.number, row.place)
}

/// The rows in order, copied.
fn sorted(alloc: Global, rows: &Rows) -> Result<Rows, AllocError>
    ensures order { IfOk result (λ sorted. AreInOrder sorted) }
    ensures same { IfOk result (λ sorted. SameRows rows.now sorted) }
{
    let mut all = standings(alloc, rows)?;
    all.sort()?;
    let mut sorted = Rows::new(alloc);
    for i in 0..all.len() {
        push_standing(&mut sorted, all[i])?;
    }
    Ok(sorted)
}

/// The rows in order. Where they are, as those of packages by rising number, nothing is moved.
fn in_order(alloc: Global, rows: Rows) -> Result<Rows, AllocError>
    ensures order { IfOk result (λ sorted. AreInOrder sorted) }
    ensures same { IfOk result (λ sorted. SameRows rows sorted) }
{
    if are_in_order(&rows) {
        return Ok(rows);
    }
    sorted(alloc, &rows)
}

/// The rows that go and those that come, without those that both lists have, where both are in order. Goes through both
/// lists once.
fn parted(alloc: Global, drops: &Rows, adds: &Rows) -> Result<RowChange, AllocError>
    requires drops { AreInOrder drops.now }
    requires adds { AreInOrder adds.now }
    ensures { IfOk result (λ change. AreNetted drops.now adds.now change) }
{
    let mut gone = Rows::new(alloc);
    let mut new = Rows::new(alloc);
    let mut i = 0;
    let mut j = 0;
    while i < drops.len() && j < adds.len() {
        if is_shared(drops, i, adds, j) {
            i += 1;
            j += 1;
        } else if comes_first(drops, i, adds, j) {
            push_row(&mut gone, drops, i)?;
            i += 1;
        } else {
            push_row(&mut new, adds, j)?;
            j += 1;
        }
    }
    push_rest(&mut gone, drops, i)?;
    push_rest(&mut new, adds, j)?;
    Ok(RowChange {
        drops: gone,
        adds: new,
    })
}

/// A change of rows without those that both lists have. What is dropped is in order, by rising number: as the records of
/// a chain stand, the other way round.
pub fn netted(alloc: Global, change: RowChange) -> Result<RowChange, AllocError>
    ensures { IfOk result (λ net. AreNetted change.drops change.adds net) }
{
    if change.drops.len() == 0 {
        return Ok(change);
    }
    let drops = in_order(alloc, change.drops)?;
    let adds = change.adds;
    if adds.len() == 0 {
        return Ok(RowChange { drops, adds });
    }
    let adds = in_order(alloc, adds)?;
    parted(alloc, &drops, &adds)
}
