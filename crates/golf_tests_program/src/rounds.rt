//! A gate at which all markers or workers meet.

use golf_base::Gate;
use std::sync::atomic::{AtomicU64, Ordering};

/// How often each of them looks for the others.
const LOOKS: u64 = 100_000_000;

/// In one of its turns each of `count` markers or workers waits until all of them have come there. None
/// waits for ever.
#[derive(Drop)]
pub struct RoundGate {
    count: u64,
    turn: u64,
    passes: AtomicU64,
    come: AtomicU64,
    met: AtomicU64,
}

impl RoundGate {
    /// Returns a gate for `count` markers or workers, which wait for each other in this turn.
    pub fn new(count: u64, turn: u64) -> RoundGate {
        RoundGate {
            count,
            turn,
            passes: AtomicU64::new(0),
            come: AtomicU64::new(0),
            met: AtomicU64::new(0),
        }
    }

    /// Returns how often the gate was passed.
    pub fn passes(&self) -> u64 {
        self.passes.load(Ordering::SeqCst)
    }

    /// Returns whether each of them has seen that all had come.
    pub fn all_met(&self) -> bool {
        self.met.load(Ordering::SeqCst) == self.count
    }

    fn look(&self) {
        for _ in 0..LOOKS {
            if self.come.load(Ordering::SeqCst) == self.count {
                let _ = self.met.fetch_add(1, Ordering::SeqCst);
                return;
            }
        }
    }
}

impl Gate for RoundGate {
    fn pass(&self, _marker: u32, turn: u64) {
        let _ = self.passes.fetch_add(1, Ordering::SeqCst);
        if turn == self.turn {
            let _ = self.come.fetch_add(1, Ordering::SeqCst);
            self.look();
        }
    }
}
