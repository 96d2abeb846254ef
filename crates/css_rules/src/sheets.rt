//! Style sheets from texts (CSS Syntax 3, section 5.3.3).
ghost use Rattle.css_rules.specs.Faults.{IsLimited};
ghost use Rattle.css_rules.specs.Views.{sheet_view};
ghost use Rattle.rules_model.specs.Sheets.{style_rules_of};
ghost use Rattle.std.specs.Prelude.{◌≡◌, IfOk};
ghost use Rattle.std.specs.Str.{chars};

use crate::fault::SheetFault;
use crate::rules::rules_of;
use crate::sheet::Sheet;
use crate::text_components::components_of;
use css_tokens::TokenFault;
use port_core::Text;
use rules_model::{MAX_SHEET_BYTES, MAX_STYLE_RULES};
use std::alloc::Global;

/// The style sheet of `text` (CSS Syntax 3, section 5.3.3).
///
/// Returns `TooLarge`, `TooDeep` or `TooManyRules`, the first of these that holds, if the sheet is
/// above that limit, unless memory runs out before.
/// Time and memory grow with the length of the text: preludes and values are moved into the rules,
/// and a condition is kept once for all rules in its block.
pub fn parse_sheet(alloc: Global, text: &str) -> Result<Sheet, SheetFault>
    ensures text { IfOk result (λ sheet. sheet.text ≡ chars text.now) }
    ensures rules { IfOk result (λ sheet. sheet_view sheet ≡ style_rules_of (chars text.now)) }
    ensures limit { IsLimited result (chars text.now) }
{
    if text.len() > MAX_SHEET_BYTES {
        return Err(SheetFault::TooLarge);
    }
    let components = match components_of(alloc, text) {
        Ok(components) => components,
        Err(TokenFault::TooDeep) => return Err(SheetFault::TooDeep),
        Err(TokenFault::NoMemory) => return Err(SheetFault::NoMemory),
    };
    let found = rules_of(alloc, components)?;
    if found.rules.len() > MAX_STYLE_RULES {
        return Err(SheetFault::TooManyRules);
    }
    Ok(Sheet {
        text: Text::new(alloc, text)?,
        conditions: found.conditions,
        rules: found.rules,
    })
}
