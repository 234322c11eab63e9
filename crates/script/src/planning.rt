ghost use Rattle.std.specs.Prelude.{◌≡◌, true, IfErr};
ghost use Rattle.plan.specs.Held.{standing};
ghost use Rattle.script.specs.Outcome.{performed, Source};
ghost use Rattle.script.specs.State.{limit_after, standing_after, is_ready};
ghost use Rattle.script.specs.Told.{told};

use crate::command::Command;
use crate::offer::Offer;
use crate::run_fault::Cause;
use crate::solving::solve_by_measure;
use limits::{Port, PortLimit};
use plan::Plan;

/// What the commands of a script work on: the limit of the port, once its figures are accepted, and the plan.
#[derive(Drop)]
pub(crate) struct Planning {
    pub(crate) limit: Option<PortLimit>,
    pub(crate) plan: Plan,
}

impl Planning {
    /// Performs the command. A solve needs a limit.
    pub(crate) fn perform(&mut self, command: Command) -> Result<Option<Offer>, Cause>
        requires { is_ready self.now.limit command ≡ true }
        ensures told { performed result ≡ told self.old.limit (standing self.old.plan) command }
        ensures source { IfErr result (Source command) }
        ensures limit { self.new.limit ≡ limit_after self.old.limit command }
        ensures standing { standing self.new.plan ≡ standing_after (standing self.old.plan) command }
    {
        match command {
            Command::Port { rate, share, floor } => {
                let port = Port::new(rate, share, u32::from(floor))?;
                self.limit = Some(port.limit());
                Ok(None)
            }
            Command::Edit(call) => {
                self.plan.perform(call)?;
                Ok(None)
            }
            Command::Solve { measure, allowance } => {
                let limit = self.limit.unwrap();
                let offer = solve_by_measure(&self.plan, &limit, measure, allowance)?;
                Ok(Some(offer))
            }
        }
    }
}
