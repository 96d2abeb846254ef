//! What is loaded.
ghost use Rattle.std.specs.Prelude.{◌≡◌, ◌≤◌, false};
ghost use Rattle.page_model.specs.declared.limits.TheConstants.{MAX_SIDE};
ghost use Rattle.request_model.specs.States.{are_over_sheet_limits};
ghost use Rattle.relayout_cli.specs.Sheets.{AreParsed, texts_of};

use css_rules::Sheet;
use dom_arena::Doc;
use page_model::Viewport;
use port_core::Seq;

/// A document, its style sheets, and the viewport.
#[derive(Debug, Drop)]
pub struct Page {
    /// The document.
    pub document: Doc,
    /// The style sheets: each with its text, and with the rules of that text.
    pub sheets: Seq<Sheet>,
    /// The viewport.
    pub viewport: Viewport,
    ghost narrow: { viewport.width ≤ MAX_SIDE },
    ghost low: { viewport.height ≤ MAX_SIDE },
    ghost parsed: { AreParsed sheets },
    ghost within: { are_over_sheet_limits (texts_of sheets) ≡ false },
}
