use cube_outside::Gate;
use std::alloc::{AllocError, Global};
use std::hint::spin_loop;
use std::sync::atomic::{AtomicBool, Ordering};

/// A place of a session: a user, a command and a part, as in [`Gate::at`].
pub type Place = (u32, u32, u32);

/// A gate that holds users at some places, each until somebody has passed another, and for so many turns of a loop at
/// most. Threads share it.
#[derive(Drop)]
pub struct HeldGate {
    holds: Vec<Hold>,
    has_given_up: AtomicBool,
}

// A place where users are held.
#[derive(Drop)]
struct Hold {
    at: Place,
    until: Place,
    turns: u64,
    was_passed: AtomicBool,
}

impl HeldGate {
    /// A gate that holds nobody yet.
    pub fn new(alloc: Global) -> HeldGate {
        HeldGate {
            holds: Vec::new(alloc),
            has_given_up: AtomicBool::new(false),
        }
    }

    /// Holds whoever reaches the place `at` until somebody has passed `until`, for so many turns at most.
    pub fn hold(&mut self, at: Place, until: Place, turns: u64) -> Result<(), AllocError> {
        self.holds.push(Hold {
            at,
            until,
            turns,
            was_passed: AtomicBool::new(false),
        })?;
        Ok(())
    }

    /// Whether somebody was let through because all turns were taken.
    pub fn gave_up(&self) -> bool {
        self.has_given_up.load(Ordering::SeqCst)
    }

    // Lets those go on who wait for this place.
    fn pass(&self, place: Place) {
        for hold in &self.holds {
            if place == hold.until {
                hold.was_passed.store(true, Ordering::SeqCst);
            }
        }
    }

    // Waits where this place is held.
    fn wait(&self, place: Place) {
        for hold in &self.holds {
            if place == hold.at && !hold.is_over() {
                self.has_given_up.store(true, Ordering::SeqCst);
            }
        }
    }
}

impl Hold {
    // Waits for the other place, and says whether somebody has passed it.
    fn is_over(&self) -> bool {
        for _ in 0..self.turns {
            if self.was_passed.load(Ordering::SeqCst) {
                return true;
            }
            spin_loop();
        }
        false
    }
}

impl Gate for HeldGate {
    fn at(&self, user: u32, command: u32, part: u32) {
        let place = (user, command, part);
        self.pass(place);
        self.wait(place);
    }
}
