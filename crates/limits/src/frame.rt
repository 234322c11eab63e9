ghost use Rattle.std.specs.Prelude.{◌≡◌};
ghost use Rattle.limits.specs.Frame.{frame, units};
ghost use Rattle.limits.specs.Selection.{Lawful};

use crate::pair::Pair;

/// How many units make one kbit/s: what is reserved is told in units of 1/16 kbit/s.
pub const UNITS_PER_KBIT: u64 = 16;

/// The bytes of a frame beside those of the message.
const FRAME_OVERHEAD: u32 = 67;

impl Pair {
    /// The bytes that one frame counts with; the padding of a short frame is not among them.
    #[tactic(auto, unfolding(crate::specs::Frame::frame_bytes))]
    pub fn frame_bytes(self) -> u32
        ensures { result ≡ frame self }
    {
        u32::from(self.mtu) + FRAME_OVERHEAD
    }

    /// What the pair reserves, in units of 1/16 kbit/s.
    #[tactic(auto, using(crate::specs::FrameLaws::frame_most, crate::proofs::Shift::shifted), unfolding(crate::specs::Frame::units))]
    pub(crate) fn units(self) -> u32
        requires { Lawful self }
        ensures { result ≡ units self }
    {
        // 8 bits a byte, and 16 units a kbit/s; a gap is a power of two, so a shift divides by it
        (self.frame_bytes() * 128) >> self.gap.trailing_zeros()
    }
}
