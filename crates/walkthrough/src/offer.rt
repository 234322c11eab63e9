use crate::frames::frames_of_link;
use limits::{GAP_COUNT, GAPS, MTU_MAX, Pair};
use plan::Plan;
use std::io;

/// Says which pair each gap has, or why it has none.
pub(crate) fn print_pairs(
    rt: &impl Print,
    plan: &Plan,
    link: u16,
    place: &[Option<Pair>; GAP_COUNT],
) -> io::Result<()> {
    let Ok(common) = plan.common_cycle(link) else {
        return println!(rt; "   no link {link} stands");
    };
    let Some(frames) = frames_of_link(plan.flows(), link, common, MTU_MAX) else {
        return println!(rt; "   the frames of link {link} cannot be counted");
    };
    println!(rt; "   The cycles of its flows come round together every {common} ms.")?;
    for (gap, candidate) in GAPS.iter().zip(place) {
        match candidate {
            Some(pair) => println!(rt; "   gap {gap} ms: MTU {} bytes", pair.mtu)?,
            None => {
                let needed = frames.saturating_mul(u64::from(*gap));
                println!(rt;
                    "   gap {gap} ms: none. Even at MTU {MTU_MAX} the flows send {frames} frames in {common} ms, and their gaps take {needed} ms"
                )?;
            }
        }
    }
    Ok(())
}
