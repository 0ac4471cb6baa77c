//! A lock between processes. It is advisory: who doesn't ask for it isn't kept out.

use rpm_outside::Failed;
use std::fs;
use std::fs::TryLockError;
use std::rt::Clock;
use std::thread::sleep;
use std::time::Duration;

/// Whom a lock lets in beside its holder.
#[derive(Clone, Copy)]
pub enum Beside {
    Nobody,
    Sharers,
}

/// How often a lock that another process holds is asked for, and the milliseconds between: five seconds in all.
const TRIES: u32 = 1000;

const PAUSE: u64 = 5;

/// Takes the lock of an open file, or turns the one that it has into this one. It lasts until the file is closed.
/// A file system that has no locks lets everybody in.
///
/// # Errors
///
/// `Failed` where another process kept it for too long. The file then has no lock.
pub fn take_lock(clock: &impl Clock, file: &fs::File, beside: Beside) -> Result<(), Failed> {
    for _ in 0..TRIES {
        let taken = match beside {
            Beside::Nobody => file.try_lock(),
            Beside::Sharers => file.try_lock_shared(),
        };
        match taken {
            Err(TryLockError::WouldBlock) => sleep(clock, Duration::from_millis(PAUSE)),
            _ => return Ok(()),
        }
    }
    Err(Failed)
}
