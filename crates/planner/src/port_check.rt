ghost use Rattle.std.specs.Prelude.{◌≡◌};
ghost use Rattle.limits.specs.Gaps.{eight_gaps};
ghost use Rattle.limits.specs.Port.{port_breach};
ghost use Rattle.plan.specs.Held.{standing};
ghost use Rattle.planner.specs.Asked.{refusal};
ghost use Rattle.planner.specs.Field.{JudgedByField};
ghost use Rattle.planner.specs.Setting.{setting_questions};
ghost use Rattle.planner.specs.SettingFault.{told};

use crate::check::check_setting;
use crate::row::Row;
use crate::setting_fault::SettingFault;
use limits::Port;
use plan::Plan;

/// Checks a setting made elsewhere under the port's own limit.
pub fn check_port_setting(plan: &Plan, port: Port, rows: &[Row]) -> Result<(), SettingFault>
    ensures told { told result ≡ refusal (setting_questions eight_gaps (port_breach port) (standing plan.now) rows.now) }
    ensures field { JudgedByField port (standing plan.now) rows.now (told result) }
{
    check_setting(plan, &port.limit(), rows)
}
