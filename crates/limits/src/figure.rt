ghost use Rattle.std.specs.Prelude.{◌≡◌, ℕ, ◌*◌, ◌^◌, ◌<◌, List};
ghost use Rattle.limits.specs.declared.pair.Pair.{Pair};
ghost use Rattle.limits.specs.Frame.{frame, units};
ghost use Rattle.limits.specs.FrameLaws.{max_frame, max_units};
ghost use Rattle.limits.specs.Selection.{max_pairs, Lawful};
ghost use Rattle.limits.specs.SumLaws.{Adds, burst_adds, burst_fits, reserve_adds, reserve_fits};
ghost use Rattle.limits.specs.Sums.{burst_bytes, reserve};
ghost use Rattle.limits.specs.Taken.{MayTake, Takes};

use crate::pair::Pair;

/// A figure of a pair that a selection adds up.
pub(crate) trait Figure {
    /// The figure of a pair.
    ghost figure: { Pair → ℕ };

    /// What the figures of a selection come to.
    ghost total: { List Pair → ℕ };

    /// The greatest figure of a lawful pair.
    ghost most: { ℕ };

    fn of(pair: Pair) -> u32
        requires { Lawful pair }
        ensures { result ≡ figure pair };

    /// The figures add up, and each rises with the MTU.
    ghost adds: { Adds total figure most };

    /// The figures of a selection fit a number of 32 bits.
    ghost fits: { max_pairs * most < 2 ^ 32 };
}

/// The bytes of one frame.
pub(crate) struct FrameBytes;

impl Figure for FrameBytes {
    ghost figure = { λ p. frame p };

    ghost total = { λ s. burst_bytes s };

    ghost most = { max_frame };

    ghost adds = { burst_adds };

    ghost fits = { burst_fits };

    fn of(pair: Pair) -> u32 {
        pair.frame_bytes()
    }
}

/// What is reserved, in units of 1/16 kbit/s.
pub(crate) struct Units;

impl Figure for Units {
    ghost figure = { λ p. units p };

    ghost total = { λ s. reserve s };

    ghost most = { max_units };

    ghost adds = { reserve_adds };

    ghost fits = { reserve_fits };

    fn of(pair: Pair) -> u32 {
        pair.units()
    }
}

/// What the figures of a selection come to with one more pair, from the pair's own figure. The pair itself is only spoken of.
pub(crate) fn with_pair<F: Figure>(sum: u32, pair: Pair, figure: u32) -> u32
    requires sum { MayTake F.total sum pair }
    requires figure { figure ≡ F.figure pair }
    ensures { Takes F.total sum pair result }
{
    sum + figure
}
