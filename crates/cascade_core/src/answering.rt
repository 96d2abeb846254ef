//! Which answers the conditions of rules have (CSS Conditional 3, section 2; Media Queries 4, section
//! 2).
ghost use Rattle.cascade_core.specs.Books.{AreInBook, book_view, rules_at};
ghost use Rattle.cascade_core.specs.Views.{media_view};
ghost use Rattle.cascade_core.specs.inner.Answers.{answer_at};
ghost use Rattle.cascade_model.specs.Answers as model;
ghost use Rattle.page_model.specs.declared.limits.TheConstants.{MAX_SIDE};
ghost use Rattle.std.specs.Prelude.{◌≡◌, ◌<◌, ◌≤◌, IfOk, length};

use crate::answer_list::Answers;
use crate::media::MediaBlock;
use crate::rule_book::RuleBook;
use conditions_model::Tri;
use media_conditions::media_matches;
use page_model::Viewport;
use port_core::{NoMemory, Seq};
use selectors::Matched;
use std::alloc::Global;

/// Returns the answers to the conditions of the rules that matched, on the viewport `v`: Yes where the
/// media queries of all `@media` blocks around a rule match.
pub fn answers<L: Drop>(
    alloc: Global,
    book: &RuleBook,
    matched: &Matched<L>,
    v: Viewport,
) -> Result<Answers, NoMemory>
    requires numbers { AreInBook matched.now.pairs (book_view book.now) }
    requires width { v.width ≤ MAX_SIDE }
    requires height { v.height ≤ MAX_SIDE }
    ensures answers { IfOk result (λ answers. answers
        ≡ model.answers_to v (rules_at (book_view book.now) matched.now.pairs)) }
    ensures count { IfOk result (λ answers. length answers ≡ length matched.now.pairs) }
{
    let mut answers = Seq::new(alloc);
    while let Some(pair) = matched.get(answers.len()) {
        answers.push(answer_of_rule(book, pair.0, v))?;
    }
    Ok(answers)
}

/// The answer to the conditions of the rule of this number.
fn answer_of_rule(book: &RuleBook, number: u32, v: Viewport) -> Tri
    requires in_book { number < length book.now.bodies }
    requires width { v.width ≤ MAX_SIDE }
    requires height { v.height ≤ MAX_SIDE }
    ensures { result ≡ answer_at v book.now.bodies number }
{
    answer_to(book.bodies.as_slice()[number as usize].media.as_slice(), v)
}

/// The answer to the media queries of these blocks.
fn answer_to(media: &[MediaBlock], v: Viewport) -> Tri
    requires width { v.width ≤ MAX_SIDE }
    requires height { v.height ≤ MAX_SIDE }
    ensures { result ≡ model.answer_to v (media_view media.now) }
{
    for block in media {
        if !media_matches(&block.queries, v) {
            return Tri::No;
        }
    }
    Tri::Yes
}
