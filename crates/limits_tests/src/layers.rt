ghost use Rattle.std.proofs.Common.{rules};

use limits::{Floor, Jitter, Layer, Limit, Open, Pair, PortLimit, Share, breach_of_pairs};

/// A limit from outside the crate, under which every selection has the same breach.
#[derive(Clone, Copy)]
struct Always {
    breach: u32,
}

impl Limit for Always {
    type Load = ();

    type Weight = ();

    ghost loaded = { λ l s. tt };

    ghost weighed = { λ l p. tt };

    ghost breach = { λ l s. l.breach };

    ghost beginning = { Prim.search rules };

    ghost lowered = { Prim.search rules };

    fn empty_load(&self) {}

    fn weight_of(&self, _pair: Pair) {}

    fn load_with(&self, _load: (), _pair: Pair, _weight: ()) {}

    fn breach_of(&self, _load: ()) -> u32 {
        self.breach
    }
}

/// A floor over a share over jitter.
fn layers(floor: u32, share: u32, jitter: u32) -> PortLimit {
    Layer {
        rule: Floor { gap: floor },
        below: Layer {
            rule: Share { rate: share },
            below: Layer {
                rule: Jitter { rate: jitter },
                below: Open,
            },
        },
    }
}

// The pair reserves 168 kbit/s, and its frame of 84 bytes needs 33,600 / 23 = 1,460.9 kbit/s.
#[test]
fn the_first_layer_that_fails_is_counted_from_the_top(rt: HostRuntime) {
    let pairs = [Pair { gap: 4, mtu: 17 }];
    assert_eq!(rt; breach_of_pairs(&layers(4, 168, 1461), &pairs), Some(0));
    assert_eq!(rt; breach_of_pairs(&layers(8, 168, 1461), &pairs), Some(1));
    assert_eq!(rt; breach_of_pairs(&layers(4, 167, 1461), &pairs), Some(2));
    assert_eq!(rt; breach_of_pairs(&layers(4, 168, 1460), &pairs), Some(3));
    assert_eq!(rt; breach_of_pairs(&layers(4, 167, 1460), &pairs), Some(2));
    assert_eq!(rt; breach_of_pairs(&layers(8, 167, 1460), &pairs), Some(1));
}

#[test]
fn a_layer_lies_on_any_limit(rt: HostRuntime) {
    let rule = Floor { gap: 4 };
    let low = [Pair { gap: 2, mtu: 17 }];
    let high = [Pair { gap: 4, mtu: 17 }];
    let below = Always { breach: 7 };
    assert_eq!(rt; breach_of_pairs(&Layer { rule, below }, &low), Some(1));
    assert_eq!(rt; breach_of_pairs(&Layer { rule, below }, &high), Some(8));
    let below = Always { breach: 0 };
    assert_eq!(rt; breach_of_pairs(&Layer { rule, below }, &low), Some(1));
    assert_eq!(rt; breach_of_pairs(&Layer { rule, below }, &high), Some(0));
}

// The pair reserves 168 kbit/s, and its frame needs 1,461 kbit/s. Only the numbers of the layers turn with their order.
#[test]
fn layers_lie_in_any_order(rt: HostRuntime) {
    let pairs = [Pair { gap: 4, mtu: 17 }];
    let turned = |floor, share, jitter| Layer {
        rule: Jitter { rate: jitter },
        below: Layer {
            rule: Share { rate: share },
            below: Floor { gap: floor },
        },
    };
    assert_eq!(rt; breach_of_pairs(&turned(4, 168, 1461), &pairs), Some(0));
    assert_eq!(rt; breach_of_pairs(&turned(4, 168, 1460), &pairs), Some(1));
    assert_eq!(rt; breach_of_pairs(&turned(4, 167, 1461), &pairs), Some(2));
    assert_eq!(rt; breach_of_pairs(&turned(8, 168, 1461), &pairs), Some(3));
}

// A rule that is a layer itself fails as one.
#[test]
fn any_limit_may_be_a_rule(rt: HostRuntime) {
    let pairs = [Pair { gap: 4, mtu: 17 }];
    let rule = Layer {
        rule: Floor { gap: 4 },
        below: Share { rate: 167 },
    };
    assert_eq!(rt; breach_of_pairs(&rule, &pairs), Some(2));
    assert_eq!(rt;
        breach_of_pairs(&Layer { rule, below: Open }, &pairs),
        Some(1)
    );
}

#[test]
fn the_breach_stops_at_its_greatest_value(rt: HostRuntime) {
    let pairs = [Pair { gap: 4, mtu: 17 }];
    let rule = Floor { gap: 4 };
    let below = Always {
        breach: u32::MAX - 1,
    };
    assert_eq!(rt;
        breach_of_pairs(&Layer { rule, below }, &pairs),
        Some(u32::MAX)
    );
    let below = Always { breach: u32::MAX };
    assert_eq!(rt;
        breach_of_pairs(&Layer { rule, below }, &pairs),
        Some(u32::MAX)
    );
    let below = Layer { rule, below };
    assert_eq!(rt;
        breach_of_pairs(&Layer { rule, below }, &pairs),
        Some(u32::MAX)
    );
}
