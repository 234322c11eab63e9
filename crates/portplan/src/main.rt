//! Reads a script from standard input, and writes to standard output how each command went.
#![tactic(auto)]

ghost use Rattle.std.specs.Prelude.{◌≡◌, ◌+◌, ◌++◌, ℕ, List, Option, take, OnOk, IfSome, Some};
ghost use Rattle.std.specs.Io.KnownBytes.{Appends};
ghost use Rattle.script.specs.declared.command.Command.{Command};
ghost use Rattle.script.specs.declared.reader_fault.ReaderFault.{ReaderFault};
ghost use Rattle.script.specs.Reading.{script_max};
ghost use Rattle.script.specs.Script.{Reads, run_lines};

use script::{SCRIPT_MAX, write_lines};
use std::alloc::Allocator;
use std::io;
use std::io::{Read, Write};

/// A byte more than a script may have is enough to see that it is too long.
const READ_MAX: u64 = SCRIPT_MAX as u64 + 1;

fn main(rt: HostRuntime) -> io::Result<()> {
    run_script(rt.reader(), rt.alloc(), &mut io::writer(&rt))
}

/// Runs the script that the reader holds, and writes the lines of each command.
fn run_script<R: Read + Drop, W: Write, A: Allocator + Drop>(
    reader: R,
    alloc: A,
    out: &mut W,
) -> io::Result<()>
    ensures { (bytes : List ℕ) (commands : List Command) (fault : Option ReaderFault) → R.remaining reader ≡ Some bytes → Reads (take (script_max + 1) bytes) 0 commands fault
        → OnOk result (Appends (W.contents out.old) (W.contents out.new) (run_lines commands fault)) }
{
    let mut script = Vec::new(alloc);
    read_script(reader, &mut script)?;
    write_lines(&script, out)
}

/// Reads a script, or a byte more than a script may have.
fn read_script<R: Read + Drop, A: Allocator>(
    reader: R,
    script: &mut Vec<u8, A>,
) -> io::Result<usize>
    ensures { OnOk result (IfSome (R.remaining reader) (λ bytes. script.new.items ≡ script.old.items ++ take (script_max + 1) bytes)) }
{
    reader.take(READ_MAX).read_to_end(script)
}
