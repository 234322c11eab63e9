ghost use Rattle.std.specs.Prelude.{◌≡◌, ◌≤◌, true, ◌||◌, is_some, ◌==◌};

use crate::planning::Planning;
use crate::reader::Reader;

/// A run of a script: its reader, how many commands it has read, what they work on, and whether a refusal has ended it.
#[derive(Drop)]
pub struct Run<'a> {
    pub(crate) reader: Reader<'a>,
    pub(crate) commands: u32,
    pub(crate) planning: Planning,
    pub(crate) ended: bool,
    // every command has a byte
    ghost counted: { commands ≤ reader.place },
    // the first command makes the limit, or ends the run
    ghost opened: { (ended || (reader.place == 0 || is_some planning.limit)) ≡ true },
}
