// What a refusal is told by. Here it is the rules paper's `Refusal`; a caller that has numbers of its own
// for what it refuses lends these.
ghost use Rattle.std.specs.Prelude.{◌≡◌, ◌<◌, ℕ};
ghost use Rattle.std.specs.Int.NonZero.{non_zero_u32_get};
ghost use Rattle.octets.specs.Refusals.{number_of};
ghost use Rattle.index_file.specs.Numbered.{refusal_told};

use octets::Refusal;
use std::num::NonZeroU32;

// Something with a number, which is never 0: that is told of what is not refused.
pub trait Numbered: Copy {
    ghost numbered: { Self → ℕ };

    fn number(self) -> u32
        ensures { result ≡ numbered self };

    // The one that tells a refusal.
    fn refused(r: Refusal) -> Self
        ensures { numbered result ≡ number_of r };

    ghost told: { (x : Self) → 0 < numbered x };
}

impl Numbered for Refusal {
    ghost numbered = { number_of };

    ghost told = { refusal_told };

    fn number(self) -> u32 {
        u32::from(self)
    }

    fn refused(r: Refusal) -> Refusal {
        r
    }
}

impl Numbered for NonZeroU32 {
    ghost numbered = { non_zero_u32_get };

    ghost told = { λ n. n.ok };

    fn number(self) -> u32 {
        self.get()
    }

    fn refused(r: Refusal) -> NonZeroU32 {
        NonZeroU32::new(u32::from(r)).unwrap_or(NonZeroU32::MIN)
    }
}
