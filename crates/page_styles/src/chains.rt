//! The style of an element, by those of the elements above it (CSS Cascade 4, section 7.2).
ghost use Rattle.cascade_core.specs.Books.{book_view};
ghost use Rattle.cascade_core.specs.StyledView.{styled_view};
ghost use Rattle.cascade_laws.specs.Styles.{root_font_size};
ghost use Rattle.cascade_model.specs.DocumentStyles.{child_style, root_style};
ghost use Rattle.page_model.specs.Document.{id_of, name_at};
ghost use Rattle.page_styles.specs.Paths.{IsPathAbove, log_below, style_below};
ghost use Rattle.page_styles.specs.Styles.{IsBegun, IsNarrow, IsStyleAt, LogsStyling, page_of};
ghost use Rattle.page_styles.specs.inner.Sources.{source_view};
ghost use Rattle.std.specs.Prelude.{◌≡◌, ◌≤◌, ◌++◌, ◌∷◌, ◌⊎◌, [], length, IfOk, IsSome, None, OnErr, OnOk, option_map};
ghost use Rattle.std.specs.Option.{option_copied};
ghost use Rattle.stream_model.specs.Ledger.{pair, pairs};
ghost use Rattle.stream_model.specs.declared.kind.Kind.TheVariants as kinds;

use crate::bases::{bases_in, font_size_of, initial_font_size};
use crate::paths::path_above;
use cascade_core::{RuleBook, Styled, room_for, styled_element};
use dom_arena::Doc;
use page_model::Viewport;
use port_core::{NoMemory, NodeId, Steps};
use selectors::Matched;
use std::alloc::Global;
use units64::Units;

/// What styles are made from.
#[derive(Debug, Drop)]
pub(crate) struct Source<'a> {
    pub(crate) doc: &'a Doc,
    pub(crate) book: &'a RuleBook,
    pub(crate) viewport: Viewport,
}

/// The style of an element, and the font size of the root.
#[derive(Debug, Drop)]
pub(crate) struct Chain<L> {
    pub(crate) styled: Styled<L>,
    pub(crate) rem: Units,
}

/// Returns the style of the element `id` of a page: of the elements above it and of itself, in this
/// order, each is matched and styled once.
///
/// # Errors
///
/// `NoMemory`; then work on some of these elements may be logged.
pub fn style_of_element<L: Drop>(
    alloc: Global,
    doc: &Doc,
    book: &RuleBook,
    viewport: Viewport,
    id: NodeId,
    steps: &mut Steps<L>,
) -> Result<Styled<L>, NoMemory>
    requires element { IsSome (name_at id doc.now.document.root) }
    requires narrow { IsNarrow viewport }
    ensures style { IfOk result (λ s.
        IsStyleAt (page_of book.now viewport doc.now.document.root) id (styled_view s)) }
    ensures logged { LogsStyling doc.now.document.root steps.old steps.new }
{
    let _ = doc.root();
    let above = path_above(alloc, doc, id)?;
    let mut room = room_for(alloc, book)?;
    let from = Source {
        doc,
        book,
        viewport,
    };
    let chain = chain_below(alloc, &from, id, above.as_slice(), &mut room, steps)?;
    Ok(chain.styled)
}

/// Returns the style of the element `id`, below those that are `above` it.
fn chain_below<L: Drop>(
    alloc: Global,
    from: &Source<'_>,
    id: NodeId,
    above: &[NodeId],
    room: &mut Matched<L>,
    steps: &mut Steps<L>,
) -> Result<Chain<L>, NoMemory>
    requires element { IsSome (name_at id from.now.doc.now.document.root) }
    requires path { IsPathAbove from.now.doc.now.document.root id above.now }
    requires narrow { IsNarrow from.now.viewport }
    requires room { length (book_view from.now.book.now) ≤ room.old.room }
    ensures style { IfOk result (λ c. styled_view c.styled ≡ style_below (source_view from.now) id above.now) }
    ensures rem { IfOk result (λ c. c.rem
        ≡ root_font_size (source_view from.now) from.now.doc.now.document.root) }
    ensures logged { OnOk result (steps.new ≡ steps.old ++ pairs (log_below id above.now)) }
    ensures begun { OnErr result (IsBegun (log_below id above.now) steps.old steps.new) }
    ensures room { room.new.room ≡ room.old.room }
{
    let _ = from.doc.root();
    if above.is_empty() {
        return chain_at_root(alloc, from, id, &None, room, steps);
    }
    let parent = chain_below(alloc, from, above[0], &above[1..], room, steps)?;
    chain_of_child(alloc, from, id, &parent, room, steps)
}

/// Returns the style of the root, which has no `parent`.
fn chain_at_root<L: Drop>(
    alloc: Global,
    from: &Source<'_>,
    id: NodeId,
    parent: &Option<Chain<L>>,
    room: &mut Matched<L>,
    steps: &mut Steps<L>,
) -> Result<Chain<L>, NoMemory>
    requires alone { parent.now ≡ None }
    requires element { IsSome (name_at id from.now.doc.now.document.root) }
    requires top { id ≡ id_of from.now.doc.now.document.root }
    requires narrow { IsNarrow from.now.viewport }
    requires room { length (book_view from.now.book.now) ≤ room.old.room }
    ensures style { IfOk result (λ c. styled_view c.styled ≡ root_style (source_view from.now) id) }
    ensures rem { IfOk result (λ c. c.rem
        ≡ root_font_size (source_view from.now) from.now.doc.now.document.root) }
    ensures logged { OnOk result
        (steps.new ≡ steps.old ++ pair kinds.Match id ∷ pair kinds.Style id ∷ []) }
    ensures begun { OnErr result
        ((steps.new ≡ steps.old) ⊎ (steps.new ≡ steps.old ++ pair kinds.Match id ∷ [])) }
    ensures room { room.new.room ≡ room.old.room }
{
    let initial = initial_font_size();
    let bases = bases_in(from.viewport, initial, initial);
    let parent = styled_of(parent);
    let styled = styled_element(
        alloc,
        from.doc,
        id,
        from.book,
        from.viewport,
        room,
        parent,
        &bases,
        steps,
    )?;
    let rem = font_size_of(styled.style());
    Ok(Chain { styled, rem })
}

fn styled_of<L>(chain: &Option<Chain<L>>) -> Option<&Styled<L>>
    ensures { option_map styled_view (option_copied result) ≡ option_map (λ c. styled_view c.styled) chain.now }
{
    match chain {
        Some(chain) => Some(&chain.styled),
        None => None,
    }
}

/// Returns the style of the element `id` below `parent`.
fn chain_of_child<L: Drop>(
    alloc: Global,
    from: &Source<'_>,
    id: NodeId,
    parent: &Chain<L>,
    room: &mut Matched<L>,
    steps: &mut Steps<L>,
) -> Result<Chain<L>, NoMemory>
    requires element { IsSome (name_at id from.now.doc.now.document.root) }
    requires narrow { IsNarrow from.now.viewport }
    requires room { length (book_view from.now.book.now) ≤ room.old.room }
    ensures style { IfOk result (λ c. styled_view c.styled
        ≡ child_style (source_view from.now) (styled_view parent.now.styled) parent.now.rem id) }
    ensures rem { IfOk result (λ c. c.rem ≡ parent.now.rem) }
    ensures logged { OnOk result
        (steps.new ≡ steps.old ++ pair kinds.Match id ∷ pair kinds.Style id ∷ []) }
    ensures begun { OnErr result
        ((steps.new ≡ steps.old) ⊎ (steps.new ≡ steps.old ++ pair kinds.Match id ∷ [])) }
    ensures room { room.new.room ≡ room.old.room }
{
    let em = font_size_of(parent.styled.style());
    let bases = bases_in(from.viewport, em, parent.rem);
    let styled = styled_element(
        alloc,
        from.doc,
        id,
        from.book,
        from.viewport,
        room,
        Some(&parent.styled),
        &bases,
        steps,
    )?;
    Ok(Chain {
        styled,
        rem: parent.rem,
    })
}
