use cube_outside::Gate;
use std::thread;

/// A gate at which sessions let others go first, more often or less, so that they mix.
pub struct Restless;

impl Gate for Restless {
    fn at(&self, user: u32, command: u32, part: u32) {
        for _ in 0..(user ^ command ^ part) % 4 {
            thread::yield_now();
        }
    }
}
