ghost use Rattle.std.proofs.Common.{rules};

use crate::limit::Limit;
use crate::pair::Pair;

/// The limit that admits everything.
#[derive(Clone, Copy, Debug, PartialEq, Eq)]
pub struct Open;

impl Limit for Open {
    type Load = ();

    type Weight = ();

    ghost loaded = { λ l s. tt };

    ghost weighed = { λ l p. tt };

    ghost breach = { λ l s. 0 };

    ghost beginning = { Prim.search rules };

    ghost lowered = { Prim.search rules };

    fn empty_load(&self) {}

    fn weight_of(&self, _pair: Pair) {}

    fn load_with(&self, _load: (), _pair: Pair, _weight: ()) {}

    fn breach_of(&self, _load: ()) -> u32 {
        0
    }
}
