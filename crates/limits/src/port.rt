ghost use Rattle.std.specs.Prelude.{◌≡◌, IfOk};
ghost use Rattle.limits.specs.PortFigures.{port_answer};

use crate::floor::Floor;
use crate::gaps::is_gap;
use crate::jitter::Jitter;
use crate::layer::Layer;
use crate::open::Open;
use crate::port_fault::PortFault;
use crate::share::Share;

/// The highest rate of a port, in kbit/s.
const MAX_RATE: u32 = 1_000_000;

/// An output port: its rate and the share of it that links may reserve, in kbit/s, and its floor, the least gap in ms.
#[derive(Clone, Copy, Debug, PartialEq, Eq)]
pub struct Port {
    rate: u32,
    share: u32,
    floor: u32,
    ghost lawful: { port_answer rate share floor ≡ 0 },
}

/// The floor over the share over jitter.
pub type PortLimit = Layer<Floor, Layer<Share, Layer<Jitter, Open>>>;

// The contract of each call says its whole outcome, and so its detail too.
impl Port {
    // here, since these definitions speak of the types of this file
    ghost use Rattle.limits.specs.Port.{HasFigures, port_limit};
    ghost use Rattle.limits.specs.PortFault.{told, told_detail};

    /// A port with these figures.
    pub fn new(rate: u32, share: u32, floor: u32) -> Result<Port, PortFault>
        ensures number { told result ≡ port_answer rate share floor }
        ensures detail { told_detail result ≡ 0 }
        ensures figures { IfOk result (HasFigures rate share floor) }
    {
        if !(1..=MAX_RATE).contains(&rate) {
            return Err(PortFault::RateOutOfRange);
        }
        if !(1..=rate).contains(&share) {
            return Err(PortFault::ShareOutOfRange);
        }
        if !is_gap(floor) {
            return Err(PortFault::FloorNotAGap);
        }
        Ok(Port { rate, share, floor })
    }

    /// The rate, in kbit/s.
    pub fn rate(self) -> u32
        ensures { result ≡ self.rate }
    {
        self.rate
    }

    /// The share that links may reserve, in kbit/s.
    pub fn share(self) -> u32
        ensures { result ≡ self.share }
    {
        self.share
    }

    /// The least gap, in ms.
    pub fn floor(self) -> u32
        ensures { result ≡ self.floor }
    {
        self.floor
    }

    /// What the port admits.
    pub fn limit(self) -> PortLimit
        ensures { result ≡ port_limit self }
    {
        Layer {
            rule: Floor { gap: self.floor },
            below: Layer {
                rule: Share { rate: self.share },
                below: Layer {
                    rule: Jitter { rate: self.rate },
                    below: Open,
                },
            },
        }
    }
}
