ghost use Rattle.std.specs.Prelude.{◌≡◌, drop};
ghost use Rattle.script.specs.Reading.{reading, place_after};
ghost use Rattle.script.specs.Script.{WrittenIsRead, ReadIsWritten};

use crate::command::PlacedCommand;
use crate::kind::Kind;
use crate::reader_fault::ReaderFault;

/// The most bytes of a script.
pub const SCRIPT_MAX: usize = 32_768;

/// A reader of the commands of a script, one after the other. It stands at the place of the next one.
#[derive(Debug, Drop)]
pub struct Reader<'a> {
    script: &'a [u8],
    place: u32,
}

impl<'a> Reader<'a> {
    /// A reader that begins at the first byte.
    #[tactic(auto, using(crate::proofs::Spelled::written_is_read))]
    pub fn new(script: &'a [u8]) -> Reader<'a>
        ensures script { result.script.now ≡ script.now }
        ensures place { result.place ≡ 0 }
        ensures written { WrittenIsRead }
        ensures spelled { ReadIsWritten script.now }
    {
        Reader { script, place: 0 }
    }

    /// The next command with its place, or none where the script is at its end. A refusal leaves the reader where it is.
    pub fn next_command(&mut self) -> Result<Option<PlacedCommand>, ReaderFault>
        ensures read { result ≡ reading self.old.script.now self.old.place }
        ensures place { self.new.place ≡ place_after self.old.place (reading self.old.script.now self.old.place) }
        ensures script { self.new.script ≡ self.old.script }
    {
        if self.script.len() > SCRIPT_MAX {
            return Err(ReaderFault::ScriptTooLong);
        }
        let place = self.place;
        let Some((byte, rest)) = self.rest().split_first() else {
            return Ok(None);
        };
        let Some(kind) = Kind::of(*byte) else {
            return Err(ReaderFault::UnknownByte { place });
        };
        let Some(operands) = rest.get(..kind.operand_bytes()) else {
            return Err(ReaderFault::OperandsCut { place });
        };
        if (kind == Kind::Port) != (place == 0) {
            return Err(ReaderFault::PortMisplaced { place });
        }
        self.place += 1 + operands.len() as u32;
        let command = kind.command(operands);
        Ok(Some(PlacedCommand { place, command }))
    }

    /// What is not read yet.
    fn rest(&self) -> &'a [u8]
        ensures { result.now ≡ drop self.now.place self.now.script.now }
    {
        self.script.get(self.place as usize..).unwrap_or(&[])
    }
}
