/// A call that changes a plan, with its arguments.
#[derive(Clone, Copy, Debug, PartialEq, Eq)]
pub enum Call {
    /// Add a link.
    AddLink {
        name: u16,
    },
    /// Add a flow to a link, with a payload in bytes and a cycle in milliseconds.
    AddFlow {
        link: u16,
        flow: u16,
        payload: u16,
        cycle: u16,
    },
    /// Give a flow another payload and cycle.
    Amend {
        flow: u16,
        payload: u16,
        cycle: u16,
    },
    /// Strike a flow.
    Withdraw {
        flow: u16,
    },
}
