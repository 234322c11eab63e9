ghost use Rattle.std.specs.Prelude.{◌≡◌, ◌<◌, ℕ, true, List, [], length, Option, Err, IfErr, IfSome};
ghost use Rattle.std.specs.Option.{option_map};
ghost use Rattle.script.specs.declared.command.Command.{Command};
ghost use Rattle.script.specs.declared.reader_fault.ReaderFault.{ReaderFault as Fault};
ghost use Rattle.script.specs.declared.run_fault.Cause.TheVariants as causes;
ghost use Rattle.script.specs.Outcome.{numbered, SourceOf};
ghost use Rattle.script.specs.Reading.{reading};
ghost use Rattle.script.specs.Run.{state};
ghost use Rattle.script.specs.Script.{Reads, ReadsAsOne, HasPerformed, GoesFurther, lines_of_steps, run_lines, SolvesPromised};
ghost use Rattle.script.specs.State.{start, fault_command, next_told, next_state};

use crate::accepted::Accepted;
use crate::planning::Planning;
use crate::reader::Reader;
use crate::reader_fault::ReaderFault;
use crate::run::Run;
use crate::run_fault::{Cause, RunFault};
use plan::Plan;

impl<'a> Run<'a> {
    /// A run of the script that has read nothing.
    #[tactic(auto, using(crate::proofs::Spelled::reads_as_one, crate::proofs::Running::steps_tell))]
    pub fn new(script: &'a [u8]) -> Run<'a>
        ensures state { state result ≡ start script.now }
        ensures performed { HasPerformed [] (state result) }
        ensures read { ReadsAsOne script.now }
        ensures steps { (cs : List Command) (fault : Option Fault) → Reads script.now 0 cs fault
            → (n : ℕ) → length cs < n → lines_of_steps n (state result) ≡ run_lines cs fault }
    {
        Run {
            reader: Reader::new(script),
            commands: 0,
            planning: Planning {
                limit: None,
                plan: Plan::open(),
            },
            ended: false,
        }
    }

    /// Performs the next command and tells what it has come to; nothing where the script is at its end, or a refusal has ended the
    /// run.
    pub fn step(&mut self) -> Option<Result<Accepted, RunFault>>
        ensures told { option_map numbered result ≡ next_told (state self.old) }
        ensures source { IfSome result (λ told. IfErr told (λ fault. SourceOf (reading self.old.reader.script.now self.old.reader.place) fault.cause)) }
        ensures state { state self.new ≡ next_state (state self.old) }
        ensures further { GoesFurther (state self.old) (option_map numbered result) (state self.new) }
        ensures solves { SolvesPromised }
    {
        self.perform_next()
    }

    /// Performs the next command. `step` adds what follows for the commands before it.
    fn perform_next(&mut self) -> Option<Result<Accepted, RunFault>>
        ensures told { option_map numbered result ≡ next_told (state self.old) }
        ensures source { IfSome result (λ told. IfErr told (λ fault. SourceOf (reading self.old.reader.script.now self.old.reader.place) fault.cause)) }
        ensures state { state self.new ≡ next_state (state self.old) }
    {
        if self.ended {
            return None;
        }
        let read = match self.reader.next_command() {
            Ok(read) => read?,
            Err(fault) => return Some(Err(self.end_at(fault))),
        };
        self.commands += 1;
        let command = self.commands;
        match self.planning.perform(read.command) {
            Ok(offer) => Some(Ok(Accepted { command, offer })),
            Err(cause) => {
                self.ended = read.command.is_port();
                Some(Err(RunFault { command, cause }))
            }
        }
    }

    /// Ends the run at a fault of the reader, and tells it under its number.
    fn end_at(&mut self, fault: ReaderFault) -> RunFault
        requires { reading self.now.reader.script.now self.now.reader.place ≡ Err fault }
        ensures fault { result ≡ record { command = fault_command self.old.commands fault; cause = causes.Reader fault } }
        ensures state { state self.new ≡ record (state self.old) { ended = true } }
    {
        self.ended = true;
        let command = match fault {
            ReaderFault::ScriptTooLong => 0,
            ReaderFault::UnknownByte { .. }
            | ReaderFault::OperandsCut { .. }
            | ReaderFault::PortMisplaced { .. } => self.commands + 1,
        };
        let cause = Cause::from(fault);
        RunFault { command, cause }
    }
}
