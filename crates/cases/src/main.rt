//! Performs the calls of text files, and holds what each tells against what its line says that it must tell.
#![tactic(auto)]

mod desk;
mod edits;
mod fault;
mod limit_calls;
mod perform;
mod queries;
mod scripts;
mod settings;
mod solves;
mod tables;
mod told;
mod words;

use desk::Desk;
use perform::perform;
use std::alloc::Global;
use std::{env, fs, io};
use tables::Tables;

fn main(rt: HostRuntime) -> io::Result<()> {
    let mut tables = Tables::new();
    let mut names = env::args(&rt)?;
    // the first is the program's own
    let _ = names.next();
    for name in names {
        let text = fs::read_to_string(&rt, name.as_str())?;
        hold_file(&rt, rt.alloc(), &mut tables, name.as_str(), text.as_str())?;
    }
    Ok(())
}

/// Performs the calls of a file, prints each that tells something else than it must, and then how many there were.
fn hold_file(
    rt: &impl Print,
    alloc: Global,
    tables: &mut Tables,
    name: &str,
    text: &str,
) -> io::Result<()> {
    let mut desk = Desk::new(alloc)?;
    let mut cases = 0_u32;
    let mut calls = 0_u32;
    let mut held = 0_u32;
    for (index, line) in text.lines().enumerate() {
        let number = index.saturating_add(1);
        if line.is_empty() || line.starts_with("#") {
            continue;
        }
        if line.starts_with("case ") {
            cases = cases.saturating_add(1);
            desk = Desk::new(alloc)?;
            continue;
        }
        let Some((call, must)) = line.split_once("->") else {
            println!(rt; "{name}, line {number}: no call, case or comment")?;
            continue;
        };
        let answer = perform(alloc, &mut desk, tables, call)?;
        let told = answer.as_str().trim();
        let must = must.trim();
        calls = calls.saturating_add(1);
        if told == must {
            held = held.saturating_add(1);
        } else {
            println!(rt; "{name}, line {number}: told `{told}`, where it must be `{must}`")?;
        }
    }
    println!(rt; "{name}: {cases} cases, and {held} of {calls} calls tell what they must")
}
