//! Where the numbers of the turns come from.
//!
//! The same schedule gives the same numbers each time.

ghost use Rattle.std.specs.Prelude.{◌≡◌, ◌<◌, ◌-◌, ◌∷◌, [], MatchOption, ℕ, suc};
ghost use Rattle.golf_run_schedules.specs.Events.{congruent as congruent_of, numbers_left};

use golf_base::List;

/// Where the numbers of the turns come from. If `m` goroutines can run, the turn with the number `c` is
/// that of the goroutine at the place `c mod m` among them.
#[derive(Debug, Drop)]
pub enum Schedule {
    /// 0, 1, 2, and so on.
    Rotate,
    /// The numbers of a linear congruence that starts at this one.
    Seed(u64),
    /// These numbers, and then none.
    Choices(List<u64>),
}

// The member of the linear congruence after `x`.
fn congruent(x: u64) -> u64
    ensures { result ≡ congruent_of x }
{
    x.wrapping_mul(6_364_136_223_846_793_005)
        .wrapping_add(1_442_695_040_888_963_407)
}

impl Schedule {
    /// Returns the number of the next turn, after `done` turns, or `None` if the choices are spent.
    pub(crate) fn next_number(&mut self, done: u32) -> Option<u64>
        ensures { (more : ℕ) → MatchOption result
            ((numbers_left self.old done (suc more) ≡ []) × (self.new ≡ self.old))
            (λ c. numbers_left self.old done (suc more) ≡ c ∷ numbers_left self.new (suc done) more) }
    {
        match self {
            Schedule::Rotate => Some(u64::from(done)),
            Schedule::Seed(x) => {
                *x = congruent(*x);
                Some(*x >> 33)
            }
            Schedule::Choices(numbers) => numbers.as_slice().get(done as usize).copied(),
        }
    }
}
