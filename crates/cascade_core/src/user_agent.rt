//! The sheet of the user agent.
ghost use Rattle.cascade_model.specs.declared.user_agent.TheConstants as user_agent;
ghost use Rattle.css_rules.specs.Views.{sheet_view};
ghost use Rattle.css_rules.specs.declared.fault.SheetFault.TheVariants as faults;
ghost use Rattle.rules_model.specs.Sheets.{style_rules_of};
ghost use Rattle.rules_model.specs.declared.limits.TheConstants as limits;
ghost use Rattle.std.specs.Prelude.{◌≡◌, ◌≤◌, IfOk, length};
ghost use Rattle.std.specs.Str.{chars};

use cascade_model::USER_AGENT_SHEET;
use css_rules::{Sheet, SheetFault, parse_sheet};
use port_core::NoMemory;
use std::alloc::Global;

/// Reads the sheet of the user agent, which is above no limit.
pub(crate) fn user_agent_sheet(alloc: Global) -> Result<Sheet, NoMemory>
    ensures rules { IfOk result (λ sheet. sheet_view sheet
        ≡ style_rules_of (chars user_agent.USER_AGENT_SHEET.now)) }
    ensures few { IfOk result (λ sheet. length sheet.rules ≤ limits.MAX_STYLE_RULES) }
{
    match parse_sheet(alloc, USER_AGENT_SHEET) {
        Ok(sheet) => Ok(sheet),
        Err(fault) => Err(no_memory(fault)),
    }
}

/// The fault of a sheet that is above no limit.
fn no_memory(fault: SheetFault) -> NoMemory
    requires { fault ≡ faults.NoMemory }
{
    match fault {
        SheetFault::NoMemory => NoMemory,
        _ => unreachable!(),
    }
}
