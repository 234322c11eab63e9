use crate::notes::{print_accepted, print_refused};
use limits::Port;
use std::io;

/// Makes a port with these figures if they are accepted, and says whether they are.
pub(crate) fn make_port(
    rt: &impl Print,
    rate: u32,
    share: u32,
    floor: u32,
) -> io::Result<Option<Port>> {
    println!(rt;
        "   A port of {rate} kbit/s, of which links may reserve {share} kbit/s, with no gap below {floor} ms."
    )?;
    match Port::new(rate, share, floor) {
        Ok(port) => {
            print_accepted(rt)?;
            Ok(Some(port))
        }
        Err(fault) => {
            print_refused(rt, fault.number(), fault.detail(), &fault)?;
            Ok(None)
        }
    }
}
