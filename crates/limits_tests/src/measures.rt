use limits::{Burst, BurstTotal, Measure, Reserve};

#[test]
fn reserve_compares_units(rt: HostRuntime) {
    assert!(rt; Reserve.no_more(2340, 2340));
    assert!(rt; Reserve.no_more(2339, 2340));
    assert!(rt; !Reserve.no_more(2341, 2340));
    assert!(rt; Reserve.no_more(0, u32::MAX));
    assert!(rt; !Reserve.no_more(u32::MAX, 0));
}

// Bytes come first: fewer bytes are no more, whatever they reserve.
#[test]
fn burst_compares_bytes_and_then_units(rt: HostRuntime) {
    let few = BurstTotal {
        bytes: 146,
        units: 18_688,
    };
    let more = BurstTotal {
        bytes: 150,
        units: 14_336,
    };
    assert!(rt; Burst.no_more(few, more));
    assert!(rt; !Burst.no_more(more, few));
    let cheaper = BurstTotal {
        bytes: 146,
        units: 18_687,
    };
    assert!(rt; Burst.no_more(cheaper, few));
    assert!(rt; !Burst.no_more(few, cheaper));
    assert!(rt; Burst.no_more(few, few));
}
