//! The time of day.

use std::rt::Clock;

/// The seconds since 1970, as far as 32 bits go. A clock before that says 0.
pub fn moment_of(clock: &impl Clock) -> u32 {
    match clock.since_1970() {
        Ok(time) => time.as_secs().min(u32::MAX as u64) as u32,
        Err(_) => 0,
    }
}
