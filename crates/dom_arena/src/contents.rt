//! Changing the code points of a text.
ghost use Rattle.std.specs.Prelude.{◌≡◌, ◌≤◌, ◌+◌, ◌||◌, ◌∷◌, [], length, nat_lt, is_some, slice_get, IfOk, OnOk, OnErr};
ghost use Rattle.std.specs.Option.{option_copied};
ghost use Rattle.std.specs.Str.{chars};
ghost use Rattle.page_model.specs.Trees.{is_long};
ghost use Rattle.page_model.specs.declared.cause.Cause.TheVariants.{TextLimit};
ghost use Rattle.page_model.specs.declared.limits.TheConstants.{MAX_TEXT, MAX_TEXTS};
ghost use Rattle.dom_arena.specs.declared.slot.Content.TheVariants.{Chars as characters};
ghost use Rattle.dom_arena.specs.Contents.{kept_after, text_causes, total_with, with_content};
ghost use Rattle.dom_arena.specs.Faults.{AnswersBy, ChecksBy};
ghost use Rattle.dom_arena.specs.Slots.{table_at};
ghost use Rattle.dom_arena.specs.Stores.{slot_by_id};
ghost use Rattle.dom_arena.specs.Views.{kept};
ghost use Rattle.dom_arena.specs.Writes.{changed};

use crate::counts::code_points;
use crate::fault::DocFault;
use crate::reading::{is_element, size_at};
use crate::slot::{Content, Slot};
use crate::store::Store;
use page_model::{MAX_TEXT, MAX_TEXTS};
use port_core::{NodeId, Text};
use std::alloc::Global;

/// Returns the number of code points of `text`, unless they are too many, by themselves or together
/// with `others`.
pub fn check_length(text: &str, others: u32) -> Result<u32, DocFault>
    ensures causes { ChecksBy ((
      is_long (chars text.now)
          || nat_lt MAX_TEXTS (others + length (chars text.now)),
      TextLimit,
    ) ∷ []) result }
    ensures size { IfOk result (λ size. size ≡ length (chars text.now)) }
    ensures few { IfOk result (λ size. others + size ≤ MAX_TEXTS) }
{
    let size = code_points(text);
    if size > MAX_TEXT as usize {
        return Err(DocFault::TextLimit);
    }
    if size as u64 + others as u64 > MAX_TEXTS as u64 {
        return Err(DocFault::TextLimit);
    }
    Ok(size as u32)
}

/// Refuses the code points of `text` for the node in `at`, where all texts have `total`; returns how
/// many they are.
fn check_text(at: Option<&Slot>, total: u32, text: &str) -> Result<u32, DocFault>
    ensures causes { ChecksBy (text_causes (option_copied at.entry) total (chars text.now)) result }
    ensures size { IfOk result (λ size. size ≡ length (chars text.now)) }
    ensures few { IfOk result (λ size. total_with total (option_copied at.entry) size ≤ MAX_TEXTS) }
{
    let Some(slot) = at else {
        return Err(DocFault::NoNode);
    };
    if is_element(&slot.content) {
        return Err(DocFault::NotText);
    }
    check_length(text, total.saturating_sub(slot.size))
}

/// Puts `content`, which has `size` code points, into a slot.
fn put(slots: &mut [Slot], at: u32, content: Content, size: u32)
    ensures { slots.new ≡ changed at (with_content (λ _. content) size) slots.old }
{
    let at = at as usize;
    if at < slots.len() {
        let slot = &mut slots[at];
        slot.content = content;
        slot.size = size;
    }
}

/// Gives the node `id` this content, which has `size` code points.
fn replace(store: &mut Store, id: NodeId, content: Content, size: u32)
    requires few { total_with store.old.code_points (slot_by_id (kept store.old) id) size ≤ MAX_TEXTS }
    ensures { kept store.new
        ≡ kept_after (kept store.old) (table_at store.old.table.items id) (λ _. content) size }
{
    let Some(at) = store.at(id) else {
        return;
    };
    let old = size_at(store.slots.as_slice(), at);
    store.code_points = store.code_points.saturating_sub(old) + size;
    put(store.slots.as_mut_slice(), at, content, size);
}

/// Gives the text `id` these code points.
pub fn set_text(store: &mut Store, alloc: Global, id: NodeId, text: &str) -> Result<(), DocFault>
    ensures set { OnOk result (kept store.new
        ≡ kept_after (kept store.old) (table_at store.old.table.items id)
        (λ _. characters (chars text.now)) (length (chars text.now))) }
    ensures causes { AnswersBy (text_causes (slot_by_id (kept store.old) id) store.old.code_points
        (chars text.now)) result }
    ensures kept { OnErr result (kept store.new ≡ kept store.old) }
{
    let size = check_text(store.slot(id), store.code_points, text)?;
    let content = Content::Chars(Text::new(alloc, text)?);
    replace(store, id, content, size);
    Ok(())
}
