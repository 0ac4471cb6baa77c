//! What stands together in a class: its numbers, and the classes that its edges end in.

ghost use Rattle.std.specs.Prelude.{◌≡◌, ℕ, ◌<◌, ◌≤◌, IfOk, OnOk, length, replicate, slice_index, slice_index_or, []};
ghost use Rattle.rpm_graph.specs.Prelude.{AreLeastNumbers, AreWithin, GainEnds, HaveEnds, HaveMembers, IsNumberRising, IsSplit, row_lists, with_link};

use crate::rows::{empty_rows, push_link};
use crate::search::Split;
use std::alloc::{AllocError, Global};

// Puts one more number at the end of a list.
fn push_number(lists: &mut [Vec<u32>], at: usize, number: u32) -> Result<(), AllocError>
    requires { at < length lists.old }
    ensures { OnOk result (row_lists lists.new ≡ with_link (row_lists lists.old) at number) }
{
    lists[at].push(number)?;
    Ok(())
}

// Puts each number into the list of its place's class.
pub fn put_numbers(
    members: &mut [Vec<u32>],
    numbers: &[u32],
    classes: &[usize],
) -> Result<(), AllocError>
    requires rises { IsNumberRising numbers.now }
    requires empty { HaveMembers numbers.now classes.now 0 (row_lists members.old) }
    requires sized { length classes.now ≡ length numbers.now }
    requires bounded { (v : ℕ) → v < length numbers.now → slice_index classes.now v < length members.old }
    ensures { OnOk result (HaveMembers numbers.now classes.now (length numbers.now) (row_lists members.new)) }
{
    for place in 0..numbers.len() {
        push_number(members, classes[place], numbers[place])?;
    }
    Ok(())
}

// Puts the classes of a row's ends into the row of a class, but for that class itself.
pub fn put_ends(
    targets: &mut [Vec<usize>],
    class: usize,
    classes: &[usize],
    row: &[usize],
) -> Result<(), AllocError>
    requires inside { class < length targets.old }
    requires ends { (i : ℕ) → i < length row.now → slice_index row.now i < length classes.now }
    ensures { OnOk result (GainEnds classes.now class row.now (length row.now) (row_lists targets.old) (row_lists targets.new)) }
{
    for to in row {
        if classes[*to] != class {
            push_link(targets, class, classes[*to])?;
        }
    }
    Ok(())
}

// So many empty lists.
fn empty_lists(alloc: Global, count: usize) -> Result<Vec<Vec<u32>>, AllocError>
    ensures { IfOk result (λ lists. row_lists lists.items ≡ replicate count []) }
{
    let mut lists = Vec::with_capacity(alloc, count)?;
    for _ in 0..count {
        lists.push(Vec::new(alloc))?;
    }
    Ok(lists)
}

// The numbers of each class, rising.
pub fn members(alloc: Global, numbers: &[u32], split: &Split) -> Result<Vec<Vec<u32>>, AllocError>
    requires rises { IsNumberRising numbers.now }
    requires sized { length split.now.classes.items ≡ length numbers.now }
    requires bounded { (v : ℕ) → v < length numbers.now → slice_index split.now.classes.items v < split.now.count }
    ensures sized { IfOk result (λ members. length (row_lists members.items) ≡ split.now.count) }
    ensures members { IfOk result (λ members. HaveMembers numbers.now split.now.classes.items (length numbers.now) (row_lists members.items)) }
{
    let mut members = empty_lists(alloc, split.count)?;
    put_numbers(&mut members, numbers, &split.classes)?;
    Ok(members)
}

// For each class the other classes that its edges end in.
pub fn class_rows(
    alloc: Global,
    rows: &[Vec<usize>],
    split: &Split,
) -> Result<Vec<Vec<usize>>, AllocError>
    requires within { AreWithin (row_lists rows.now) }
    requires split { IsSplit (row_lists rows.now) split.now.classes.items split.now.count }
    ensures sized { IfOk result (λ ends. length ends.items ≡ split.now.count) }
    ensures ends { IfOk result (λ ends. HaveEnds (row_lists rows.now) split.now.classes.items (length rows.now) (row_lists ends.items)) }
{
    let mut ends = empty_rows(alloc, split.count)?;
    for place in 0..rows.len() {
        put_ends(
            &mut ends,
            split.classes[place],
            &split.classes,
            &rows[place],
        )?;
    }
    Ok(ends)
}

// The least number of each class.
pub fn least_numbers(alloc: Global, members: &[Vec<u32>]) -> Result<Vec<u32>, AllocError>
    requires { (c : ℕ) → c < length members.now → 0 < length (slice_index_or (row_lists members.now) c []) }
    ensures sized { IfOk result (λ leasts. length leasts.items ≡ length members.now) }
    ensures leasts { IfOk result (λ leasts. AreLeastNumbers (row_lists members.now) (length members.now) leasts.items) }
{
    let mut leasts = Vec::with_capacity(alloc, members.len())?;
    for class in members {
        leasts.push(class[0])?;
    }
    Ok(leasts)
}
