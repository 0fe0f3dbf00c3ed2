//! Gates that watch how markers run. None of them waits for ever.

use golf_base::Gate;
use std::sync::atomic::{AtomicU64, Ordering};

/// How often a marker looks for the flag of the other one.
const LOOKS: u64 = 100_000_000;

// A flag of each of two markers, and whether each has seen the flag of the other.
#[derive(Drop)]
struct Flags {
    raised: [AtomicU64; 2],
    seen: [AtomicU64; 2],
}

impl Flags {
    fn new() -> Flags {
        Flags {
            raised: [AtomicU64::new(0), AtomicU64::new(0)],
            seen: [AtomicU64::new(0), AtomicU64::new(0)],
        }
    }

    fn raise(&self, marker: usize) {
        if marker < 2 {
            self.raised[marker].store(1, Ordering::SeqCst);
        }
    }

    fn look(&self, marker: usize) {
        if marker < 2 {
            for _ in 0..LOOKS {
                if self.raised[1 - marker].load(Ordering::SeqCst) == 1 {
                    self.seen[marker].store(1, Ordering::SeqCst);
                    return;
                }
            }
        }
    }

    fn both_seen(&self) -> bool {
        self.seen[0].load(Ordering::SeqCst) == 1 && self.seen[1].load(Ordering::SeqCst) == 1
    }
}

/// In turn 0 each of two markers raises its flag and looks for the flag of the other.
#[derive(Drop)]
pub struct MeetingGate {
    flags: Flags,
}

impl MeetingGate {
    /// Returns a gate whose flags are down.
    pub fn new() -> MeetingGate {
        MeetingGate {
            flags: Flags::new(),
        }
    }

    /// Returns whether each of the two markers has seen the flag of the other.
    pub fn both_seen(&self) -> bool {
        self.flags.both_seen()
    }
}

impl Gate for MeetingGate {
    fn pass(&self, marker: u32, turn: u64) {
        if turn == 0 {
            self.flags.raise(marker as usize);
            self.flags.look(marker as usize);
        }
    }
}

/// In its turn 0, marker 1 looks for the flag that marker 0 raises in a turn of its own. Marker 1 raises its flag
/// once it has taken some places.
#[derive(Drop)]
pub struct StealingGate {
    flags: Flags,
    turn: u64,
    places: u64,
}

impl StealingGate {
    /// Returns a gate whose flags are down. Marker 0 raises its flag in this turn, and marker 1 raises its own
    /// after so many places.
    pub fn new(turn: u64, places: u64) -> StealingGate {
        StealingGate {
            flags: Flags::new(),
            turn,
            places,
        }
    }

    /// Returns whether each of the two markers has seen the flag of the other.
    pub fn both_seen(&self) -> bool {
        self.flags.both_seen()
    }
}

impl Gate for StealingGate {
    fn pass(&self, marker: u32, turn: u64) {
        if marker == 1 && turn == 0 {
            self.flags.look(1);
        }
        if marker == 0 && turn == self.turn {
            self.flags.raise(0);
            self.flags.look(0);
        }
        if marker == 1 && turn == self.places {
            self.flags.raise(1);
        }
    }
}

/// Counts the passes, and sums the markers' numbers and the turns.
#[derive(Drop)]
pub struct CountingGate {
    passes: AtomicU64,
    markers: AtomicU64,
    turns: AtomicU64,
}

impl CountingGate {
    /// Returns a gate that has counted nothing.
    pub fn new() -> CountingGate {
        CountingGate {
            passes: AtomicU64::new(0),
            markers: AtomicU64::new(0),
            turns: AtomicU64::new(0),
        }
    }

    /// Returns how often the gate was passed.
    pub fn passes(&self) -> u64 {
        self.passes.load(Ordering::SeqCst)
    }

    /// Returns how often the gate was passed, the sum of the markers' numbers, and the sum of the turns.
    pub fn sums(&self) -> (u64, u64, u64) {
        (
            self.passes.load(Ordering::SeqCst),
            self.markers.load(Ordering::SeqCst),
            self.turns.load(Ordering::SeqCst),
        )
    }
}

impl Gate for CountingGate {
    fn pass(&self, marker: u32, turn: u64) {
        let _ = self.passes.fetch_add(1, Ordering::SeqCst);
        let _ = self.markers.fetch_add(u64::from(marker), Ordering::SeqCst);
        let _ = self.turns.fetch_add(turn, Ordering::SeqCst);
    }
}
