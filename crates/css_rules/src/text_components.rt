//! The component values of texts.
ghost use Rattle.css_model.specs.Components.{depths};
ghost use Rattle.css_model.specs.declared.token.TheConstants.{MAX_NESTING};
ghost use Rattle.css_tokens.specs.Nested.{components_view};
ghost use Rattle.rules_model.specs.Sheets as sheets;
ghost use Rattle.std.specs.Prelude.{◌≡◌, ◌≤◌, ◌<◌, IfOk, Err};
ghost use Rattle.std.specs.Str.{chars};

use css_tokens::{Components, TokenFault, components, tokenize};
use std::alloc::Global;

/// Returns the component values of `text` (CSS Syntax 3, section 5.3.10).
///
/// # Errors
///
/// `TooDeep` where simple blocks and functions nest deeper than `MAX_NESTING`; or `NoMemory`.
pub fn components_of(alloc: Global, text: &str) -> Result<Components, TokenFault>
    ensures components { IfOk result
        (λ cs. components_view cs ≡ sheets.components_of (chars text.now)) }
    ensures low { IfOk result (λ cs. depths (components_view cs) ≤ MAX_NESTING) }
    ensures deep { result ≡ Err TokenFault.TooDeep
        → MAX_NESTING < depths (sheets.components_of (chars text.now)) }
{
    let tokens = tokenize(alloc, text)?;
    components(alloc, &tokens)
}
