//! Runs some thousands of random and damaged scripts, and looks whether each gives lines, and only such as its commands may be
//! told.
#![tactic(auto)]

mod command;
mod damage;
mod judge;
mod kind;
mod line;
mod maker;
mod offer;
mod random;
mod reading;
mod run;
mod sensible;
mod standing;
mod tally;
mod wild;
mod wrong;

use kind::{KINDS, Kind};
use maker::Maker;
use run::try_script;
use std::alloc::Global;
use std::io;
use tally::Tally;
use wrong::Wrong;

/// What the numbers of all scripts come from.
const SEED: u64 = 664;

fn main(rt: HostRuntime) -> io::Result<()> {
    let mut maker = Maker::new(rt.alloc(), SEED);
    let mut all = Tally::default();
    for kind in KINDS {
        let tally = try_kind(&rt, kind, &mut maker, rt.alloc())?;
        println!(rt; "{}: {tally}", kind.name())?;
        all.add(&tally);
    }
    println!(rt; "all: {all}")?;
    print!(rt; "{}", all.told)
}

/// Tries the scripts of a kind, and prints those of which something else than their lines is written.
fn try_kind(rt: &impl Print, kind: Kind, maker: &mut Maker, alloc: Global) -> io::Result<Tally> {
    let mut tally = Tally::default();
    for number in 0..kind.scripts() {
        let script = maker.script(kind, number)?;
        match try_script(alloc, &script) {
            Ok((told, lines)) => tally.note(&told, lines),
            Err(wrong) => {
                tally.note_wrong();
                print_wrong(rt, kind, number, wrong, &script)?;
            }
        }
    }
    Ok(tally)
}

/// Says which script it was.
fn print_wrong(
    rt: &impl Print,
    kind: Kind,
    number: u32,
    wrong: Wrong,
    script: &[u8],
) -> io::Result<()> {
    println!(rt; "{}, script {number}: {wrong:?}", kind.name())?;
    print!(rt; "  ")?;
    for byte in script {
        print!(rt; " {byte:02X}")?;
    }
    println!(rt)
}
