//! The search for the classes, one level of the path at a time.

ghost use Rattle.std.specs.Prelude.{◌≡◌, ℕ, ◌+◌, ◌-◌, ◌*◌, ◌++◌, ◌∷◌, [], ◌<◌, ◌≤◌, ◌⊎◌, map, length, slice_index, OnOk, IfOk, IfSome, IfNone, ◌^◌};
ghost use Rattle.rpm_graph.specs.Prelude.{AreWithin, IsClosed, IsFrontOfRoots, IsEntered, IsFreshSearch, IsLastRoot, IsLowered, IsMarked, IsSplit, KeepsSeen, link, link_at, NoneWaits, row_lists, Searches, work};

use std::alloc::{AllocError, Global};

/// An edge between two places.
#[derive(Clone, Copy)]
pub struct Link {
    pub from: usize,
    pub to: usize,
}

#[derive(Drop)]
pub struct Search {
    pub ranks: Vec<usize>,
    pub path: Vec<usize>,
    pub roots: Vec<usize>,
    pub pending: Vec<Link>,
    pub closed: usize,
}

impl Search {
    // A search that has entered nothing.
    pub fn new(alloc: Global, count: usize) -> Result<Search, AllocError>
        ensures { IfOk result (λ s. IsFreshSearch count s) }
    {
        Ok(Search {
            ranks: vec![in alloc; 0; count]?,
            path: Vec::new(alloc),
            roots: Vec::new(alloc),
            pending: Vec::new(alloc),
            closed: 0,
        })
    }

    // Puts a place at the end of the path, as a level of its own.
    pub fn enter(&mut self, place: usize, row: &[usize]) -> Result<(), AllocError>
        requires { place < length self.old.ranks.items }
        ensures { OnOk result (IsEntered place row.now self.old self.new) }
    {
        let rank = self.path.len() + 1;
        self.ranks[place] = rank;
        self.roots.push(self.path.len())?;
        self.path.push(place)?;
        put_row(&mut self.pending, place, row)
    }

    // Takes the last level off the path, as a class.
    pub fn close(&mut self, root: usize)
        requires rooted { root < length self.old.path.items }
        requires within { (i : ℕ) → i < length self.old.path.items → slice_index self.old.path.items i < length self.old.ranks.items }
        requires room { length self.old.ranks.items + self.old.closed + 1 < 2 ^ 64 }
        ensures { IsClosed root self.old self.new }
    {
        let rank = self.ranks.len() + 1 + self.closed;
        mark(&mut self.ranks, &self.path[root..], rank);
        self.path.truncate(root);
        self.roots.pop();
        self.closed += 1;
    }

    // Looks at one more edge from the last level, or closes that level where there is none.
    pub fn step(&mut self, root: usize, rows: &[Vec<usize>]) -> Result<(), AllocError>
        requires searched { Searches (row_lists rows.now) self.old }
        requires within { AreWithin (row_lists rows.now) }
        requires small { length rows.now < 2 ^ 59 }
        requires last { IsLastRoot self.old.roots.items root }
        ensures searched { OnOk result (Searches (row_lists rows.now) self.new) }
        ensures smaller { OnOk result (work (row_lists rows.now) self.new < work (row_lists rows.now) self.old) }
        ensures keeps { OnOk result (KeepsSeen self.old.ranks.items self.new.ranks.items) }
    {
        match take_waiting(&mut self.pending, &self.ranks, root) {
            None => self.close(root),
            Some(link) => {
                let rank = self.ranks[link.to];
                if rank == 0 {
                    self.enter(link.to, &rows[link.to])?;
                } else {
                    join(&mut self.roots, rank);
                }
            }
        }
        Ok(())
    }
}

impl Search {
    // Enters the place where that is still to be done, and goes on until the path is empty.
    pub fn explore(&mut self, place: usize, rows: &[Vec<usize>]) -> Result<(), AllocError>
        requires searched { Searches (row_lists rows.now) self.old }
        requires within { AreWithin (row_lists rows.now) }
        requires small { length rows.now < 2 ^ 59 }
        requires inside { place < length rows.now }
        requires empty { self.old.path.items ≡ [] }
        ensures searched { OnOk result (Searches (row_lists rows.now) self.new) }
        ensures empty { OnOk result (self.new.path.items ≡ []) }
        ensures keeps { OnOk result (KeepsSeen self.old.ranks.items self.new.ranks.items) }
        ensures seen { OnOk result (1 ≤ slice_index self.new.ranks.items place) }
    {
        if self.ranks[place] != 0 {
            return Ok(());
        }
        self.enter(place, &rows[place])?;
        while let Some(last) = self.roots.last() {
            let root = *last;
            self.step(root, rows)?;
        }
        Ok(())
    }
}

// Takes off the last edge that waits, where it begins on the last level.
fn take_waiting(pending: &mut Vec<Link>, ranks: &[usize], root: usize) -> Option<Link>
    requires { (i : ℕ) → i < length pending.old.items → (link_at pending.old.items i).from < length ranks.now }
    ensures none { IfNone result (NoneWaits ranks.now pending.old.items root × (pending.new.items ≡ pending.old.items)) }
    ensures some { IfSome result (λ l. (pending.old.items ≡ pending.new.items ++ l ∷ []) × (root < slice_index ranks.now l.from)) }
{
    let waiting = pending.len();
    if waiting == 0 {
        return None;
    }
    let last = pending[waiting - 1];
    if ranks[last.from] <= root {
        return None;
    }
    pending.pop();
    Some(last)
}

// Puts all edges of a place on the stack.
fn put_row(pending: &mut Vec<Link>, place: usize, row: &[usize]) -> Result<(), AllocError>
    ensures { OnOk result (pending.new.items ≡ pending.old.items ++ map (λ to. link place to) row.now) }
{
    for to in row {
        pending.push(Link {
            from: place,
            to: *to,
        })?;
    }
    Ok(())
}

// Takes off the roots that are at the rank or above.
fn join(roots: &mut Vec<usize>, rank: usize)
    ensures cut { IsFrontOfRoots roots.old.items rank roots.new.items }
    ensures last { 0 < length roots.new.items → slice_index roots.new.items (length roots.new.items - 1) < rank }
{
    while let Some(root) = roots.last() {
        if *root < rank {
            break;
        }
        roots.pop();
    }
}

// Gives the rank to each of the places.
fn mark(ranks: &mut [usize], places: &[usize], rank: usize)
    requires { (i : ℕ) → i < length places.now → slice_index places.now i < length ranks.old }
    ensures { IsMarked ranks.old places.now rank ranks.new }
{
    for place in places {
        ranks[*place] = rank;
    }
}

// Takes what the ranks of classes begin at from each rank.
fn lower(ranks: &mut [usize], base: usize)
    requires { (v : ℕ) → v < length ranks.old → base ≤ slice_index ranks.old v }
    ensures { IsLowered ranks.old base (length ranks.old) ranks.new }
{
    for rank in ranks.iter_mut() {
        *rank -= base;
    }
}

/// Which class each place is of, and how many classes there are.
#[derive(Drop)]
pub struct Split {
    pub classes: Vec<usize>,
    pub count: usize,
}

/// The classes of the places that lead to each other, numbered so that no edge goes to a higher one.
///
/// Gabow's search along a path, with a stack for the path, one for its levels and one for the edges that wait: each
/// place and each edge is looked at once, and nothing calls itself. `Err` where memory is refused.
pub fn find_classes(alloc: Global, rows: &[Vec<usize>]) -> Result<Split, AllocError>
    requires within { AreWithin (row_lists rows.now) }
    requires small { length rows.now < 2 ^ 59 }
    ensures { IfOk result (λ s. IsSplit (row_lists rows.now) s.classes.items s.count) }
{
    let mut search = Search::new(alloc, rows.len())?;
    for place in 0..rows.len() {
        search.explore(place, rows)?;
    }
    let mut classes = search.ranks;
    lower(&mut classes, rows.len() + 1);
    Ok(Split {
        classes,
        count: search.closed,
    })
}
