ghost use Rattle.std.specs.Prelude.{List, Option, OnOk};
ghost use Rattle.std.specs.Io.KnownBytes.{Appends};
ghost use Rattle.script.specs.declared.command.Command.{Command};
ghost use Rattle.script.specs.declared.reader_fault.ReaderFault.{ReaderFault};
ghost use Rattle.script.specs.Script.{Reads, run_lines};

use crate::lines::LINES_SIZE;
use crate::run::Run;
use std::io;

/// Runs the script and writes the lines of every command, one command after the other, the refusal that ends the
/// run included. It stops where the writer fails, and tells that error.
pub fn write_lines<W: io::Write>(script: &[u8], out: &mut W) -> io::Result<()>
    ensures { (cs : List Command) (fault : Option ReaderFault) → Reads script.now 0 cs fault
        → OnOk result (Appends (W.contents out.old) (W.contents out.new) (run_lines cs fault)) }
{
    let mut run = Run::new(script);
    let mut buffer = [0; LINES_SIZE];
    while let Some(length) = run.next_lines(&mut buffer) {
        out.write_all(&buffer[..length])?;
    }
    Ok(())
}
