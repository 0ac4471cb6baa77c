//! What each command does on the disk over which its changes are held: it opens the database, and changes it.

ghost use Rattle.std.specs.Prelude.{◌≡◌, true, IsTrue, Err};
ghost use Rattle.rpm_commit.specs.Prelude.{changes_index, ended_as, exercise_ended, is_anew, IsCountable, needs_none, reads_shelf, shown_outputs, Streams, task_course, task_parts, WorksOn};

use crate::opening::open_to_change;
use rpm_change::{add_files, erase_numbers, import_list, rebuild, replace_package};
use rpm_command::Task;
use rpm_effects::{Halt, Tally, Why};
use rpm_exercise::{ExerciseFault, exercise};
use rpm_outside::{Buffered, Disk, Shelf, Sink};
use std::alloc::Global;

/// How a command ended whose course was gone through, or was stopped.
fn ended(done: Result<Tally, Halt>) -> Result<Tally, Why>
    ensures { result ≡ ended_as done }
{
    match done {
        Ok(tally) => Ok(tally),
        Err(halt) => Err(Why::from(halt)),
    }
}

/// How a command ended whose exercise was made, or wasn't.
fn exercise_ended(done: Result<Tally, ExerciseFault>) -> Result<Tally, Why>
    ensures { result ≡ exercise_ended done }
{
    match done {
        Ok(tally) => Ok(tally),
        Err(ExerciseFault::NotEmpty { number }) => Err(Why::NotEmpty(number)),
        Err(ExerciseFault::Halted(halt)) => Err(Why::from(halt)),
    }
}

/// Opens the database, which is made where there is none, and makes the changes of a command, at the moment `now`.
pub(crate) fn change_on<D: Disk, S: Shelf, O: Sink + Drop, E: Sink + Drop>(
    alloc: Global,
    disk: &mut D,
    shelf: &mut S,
    task: &Task<'_>,
    now: u32,
    out: &mut Buffered<O>,
    err: &mut Buffered<E>,
) -> Result<Tally, Why>
    requires countable { IsCountable (task_parts task.now) }
    ensures works { WorksOn D.Disk (is_anew (task_parts task.now)) (changes_index (task_parts task.now))
        (needs_none (task_parts task.now)) (task_course (S.paths shelf.old) now (task_parts task.now))
        (IsTrue D.tells × (reads_shelf (task_parts task.now) ≡ true → IsTrue S.tells))
        (shown_outputs O.Sink E.Sink out.old err.old) (shown_outputs O.Sink E.Sink out.new err.new) disk.old disk.new result }
    ensures streams { Streams S.Shelf O.Sink E.Sink (reads_shelf (task_parts task.now)) (λ why. result ≡ Err why)
        (shelf.old, out.old, err.old) (shelf.new, out.new, err.new) }
{
    let mut db = open_to_change(alloc, disk)?;
    match task {
        Task::Make => Ok(Tally {
            failed: 0,
            changes: 0,
        }),
        Task::Add(paths) => {
            let paths = paths.as_slice();
            ended(add_files(alloc, &mut db, disk, shelf, paths, now, err))
        }
        Task::Replace { number, path } => {
            let number = *number;
            ended(replace_package(alloc, &mut db, disk, shelf, number, path, now, err))
        }
        Task::Erase(numbers) => {
            let numbers = numbers.as_slice();
            ended(erase_numbers(alloc, &mut db, disk, numbers, err))
        }
        Task::Import => ended(import_list(alloc, &mut db, disk, shelf, err)),
        Task::Rebuild => ended(rebuild(alloc, &mut db, disk, out)),
        Task::Exercise(headers) => exercise_ended(exercise(alloc, &mut db, disk, *headers, out)),
    }
}
