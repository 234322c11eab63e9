use plan::Call;

/// The edits that the integrator has noted, in their order.
pub(crate) const ORDER_BOOK: [Call; 14] = [
    Call::AddLink { name: 7 },
    Call::AddFlow {
        link: 7,
        flow: 1,
        payload: 80,
        cycle: 10,
    },
    Call::AddFlow {
        link: 7,
        flow: 2,
        payload: 100,
        cycle: 12,
    },
    Call::AddLink { name: 7 },
    Call::AddLink { name: 9 },
    Call::AddFlow {
        link: 9,
        flow: 4,
        payload: 200,
        cycle: 1000,
    },
    Call::AddFlow {
        link: 9,
        flow: 3,
        payload: 250,
        cycle: 1001,
    },
    Call::Amend {
        flow: 4,
        payload: 200,
        cycle: 1001,
    },
    Call::AddFlow {
        link: 7,
        flow: 3,
        payload: 250,
        cycle: 160,
    },
    Call::Withdraw { flow: 3 },
    Call::AddFlow {
        link: 9,
        flow: 3,
        payload: 250,
        cycle: 160,
    },
    Call::Withdraw { flow: 5 },
    Call::Amend {
        flow: 3,
        payload: 0,
        cycle: 160,
    },
    Call::Amend {
        flow: 4,
        payload: 200,
        cycle: 80,
    },
];
