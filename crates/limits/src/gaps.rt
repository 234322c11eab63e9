ghost use Rattle.std.specs.Prelude.{◌≡◌};
ghost use Rattle.limits.specs.Gaps.{eight_gaps};
ghost use Rattle.limits.specs.Range.{among};

/// How many gaps there are.
pub const GAP_COUNT: usize = 8;

/// The bandwidth allocation gaps, in milliseconds, rising.
pub const GAPS: [u16; GAP_COUNT] = [1, 2, 4, 8, 16, 32, 64, 128];

/// Is the number one of the gaps?
pub(crate) fn is_gap(number: u32) -> bool
    ensures { result ≡ among eight_gaps number }
{
    u16::try_from(number).is_ok_and(|gap| GAPS.contains(&gap))
}
