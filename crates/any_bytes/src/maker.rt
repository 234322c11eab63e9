use crate::command::{Command, spelled};
use crate::kind::Kind;
use crate::random::Random;
use crate::sensible::{port, sensible};
use crate::{damage, wild};
use std::alloc::{AllocError, Global};

/// How many bytes a long script has, one after the other. More than 32,768 are refused.
const LENGTHS: [usize; 6] = [32_767, 32_768, 32_769, 32_770, 40_000, 65_536];

/// Makes one script after the other.
#[derive(Drop)]
pub(crate) struct Maker {
    alloc: Global,
    random: Random,
    /// The script that is cut short at every length, and the next length.
    whole: Vec<u8>,
    length: usize,
}

impl Maker {
    pub(crate) fn new(alloc: Global, seed: u64) -> Maker {
        Maker {
            alloc,
            random: Random::new(seed),
            whole: Vec::new(alloc),
            length: 1,
        }
    }

    /// The script of this number, from 0, of the kind.
    pub(crate) fn script(&mut self, kind: Kind, number: u32) -> Result<Vec<u8>, AllocError> {
        let alloc = self.alloc;
        match kind {
            Kind::AnyBytes => wild::any_bytes(alloc, &mut self.random),
            Kind::AnyCommands => wild::any_commands(alloc, &mut self.random),
            Kind::Crowd => wild::crowd(alloc, &mut self.random),
            Kind::CutShort => self.cut_short(),
            Kind::Long => {
                let length = LENGTHS.get(number as usize % LENGTHS.len()).copied();
                wild::long(alloc, &mut self.random, length.unwrap_or_default())
            }
            _ => self.damaged(kind),
        }
    }

    /// A sensible script, with the damage of the kind.
    fn damaged(&mut self, kind: Kind) -> Result<Vec<u8>, AllocError> {
        let alloc = self.alloc;
        let mut commands = sensible(alloc, &mut self.random)?;
        self.damage_commands(kind, &mut commands)?;
        let mut script = spelled(alloc, &commands)?;
        let random = &mut self.random;
        match kind {
            Kind::BytesChanged => damage::change_bytes(&mut script, random),
            Kind::BitsTurned => damage::turn_bits(&mut script, random),
            Kind::PieceCutOut => return damage::without_piece(alloc, &script, random),
            Kind::PieceTwice => return damage::with_piece_twice(alloc, &script, random),
            Kind::ByteMore => return damage::with_byte_more(alloc, &script, random),
            _ => {}
        }
        Ok(script)
    }

    /// Damages the order of commands, where the kind is of that sort.
    fn damage_commands(
        &mut self,
        kind: Kind,
        commands: &mut Vec<Command>,
    ) -> Result<(), AllocError> {
        let random = &mut self.random;
        match kind {
            Kind::CommandsSwapped => {
                damage::swap_commands(commands, random);
                Ok(())
            }
            Kind::CommandTwice => {
                let at = random.below(commands.len());
                match commands.get(at).copied() {
                    Some(command) => damage::put_in(commands, command, random),
                    None => Ok(()),
                }
            }
            Kind::SecondPort => {
                let second = port(random);
                damage::put_in(commands, second, random)
            }
            _ => Ok(()),
        }
    }

    /// A sensible script cut short, a byte later each time, and then another.
    fn cut_short(&mut self) -> Result<Vec<u8>, AllocError> {
        if self.length > self.whole.len() {
            let commands = sensible(self.alloc, &mut self.random)?;
            self.whole = spelled(self.alloc, &commands)?;
            self.length = 0;
        }
        let script = damage::cut_short(self.alloc, &self.whole, self.length)?;
        self.length = self.length.saturating_add(1);
        Ok(script)
    }
}
