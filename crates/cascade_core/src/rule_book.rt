//! The rules of a page (CSS Cascade 4, section 6.2).
ghost use Rattle.cascade_core.specs.Numbers.{AreNumbered};
ghost use Rattle.std.specs.Prelude.{◌≡◌, length};

use crate::defaults::Defaults;
use crate::rule_body::RuleBody;
use port_core::Seq;
use selectors::RuleList;

/// The rules of the user agent, and then those of each sheet, in the order of their texts.
///
/// A rule whose prelude is no selector list is left out (Selectors 4, section 3.9).
#[derive(Debug, Drop)]
pub struct RuleBook {
    pub(crate) rules: RuleList,
    pub(crate) bodies: Seq<RuleBody>,
    /// The styles of elements of which nothing is declared but `display`. Styles share their parts.
    pub(crate) defaults: Defaults,
    ghost numbered: { AreNumbered rules },
    ghost paired: { length rules ≡ length bodies },
}
