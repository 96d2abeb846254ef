//! Dumps.
ghost use Rattle.std.specs.Prelude.{◌≡◌, ◌≤◌, ◌++◌, pos, codes, [], Some, OnOk, string_bytes};
ghost use Rattle.std.specs.Fmt.{decimal, signed_decimal};
ghost use Rattle.layout_model.specs.Setting.{Setting};
ghost use Rattle.reply_model.specs.Spelling.{field};
ghost use Rattle.reply_model.specs.DumpText.{box_line, box_lines, all_box_lines};
ghost use Rattle.relayout_cli.specs.Pages.{page_view};
ghost use Rattle.relayout_cli.specs.inner.Dumps.{IsDumpOf};
ghost use Rattle.relayout_cli.specs.inner.Walk.{node_at, nodes_at, Reaches, AllReach};
ghost use Rattle.relayout_cli.specs.inner.Flat.{all_flat};
ghost use Rattle.relayout_cli.specs.inner.Frames.{frame_view};

use crate::boxes::{Frame, units_of};
use crate::page::Page;
use crate::replies::push_ok;
use dom_arena::{Children, Doc};
use itoa::Buffer;
use page_model::MAX_DEPTH;
use port_core::{NoMemory, NodeId};
use reply_texts::push_field;
use units64::Units;

/// Appends the dump of a page.
pub fn push_dump(page: &Page, reply: &mut String) -> Result<(), NoMemory>
    requires empty { string_bytes reply.old ≡ [] }
    ensures dump { OnOk result ((setting : Setting)
        → IsDumpOf setting (page_view page.now) (string_bytes reply.new)) }
{
    let width = units_of(page.viewport.width);
    push_boxes(
        reply,
        &page.document,
        page.document.root(),
        width,
        MAX_DEPTH,
    )?;
    push_ok(reply)
}

/// Appends the lines of an element's box and of the boxes below it, in document order. Each block fills the width that it has, and stands at the corner of the block around it. No box stands more than `levels` deep below: the recursion ends by that, and nothing is left out.
#[cycle(walk)]
fn push_boxes(
    reply: &mut String,
    doc: &Doc,
    id: NodeId,
    width: Units,
    levels: u32,
) -> Result<(), NoMemory>
    requires { Reaches levels id doc.now.document.root }
    ensures { OnOk result (string_bytes reply.new
        ≡ string_bytes reply.old ++ box_lines (all_flat width) (pos 0) (pos 0)
        (node_at id doc.now.document.root)) }
{
    match doc.tag(id) {
        Some(tag) => {
            push_box(reply, id, tag, &Frame::flat(width))?;
            let kids = doc.children(id);
            push_children(reply, doc, kids, width, levels - 1)
        }
        None => Ok(()),
    }
}

/// Appends the lines of these children's boxes and of those below them, none more than `levels` deep.
#[cycle(walk)]
fn push_children(
    reply: &mut String,
    doc: &Doc,
    kids: Children,
    width: Units,
    levels: u32,
) -> Result<(), NoMemory>
    requires { AllReach levels kids doc.now.document.root }
    ensures { OnOk result (string_bytes reply.new
        ≡ string_bytes reply.old ++ all_box_lines (all_flat width) (pos 0) (pos 0)
        (nodes_at kids.entry doc.now.document.root)) }
{
    for kid in kids {
        push_boxes(reply, doc, kid, width, levels)?;
    }
    Ok(())
}

/// Appends the line of a box that stands in one at the viewport's corner.
#[tactic(auto, unfolding(reply_model::specs::DumpText::box_line))]
fn push_box(reply: &mut String, id: NodeId, tag: &str, frame: &Frame) -> Result<(), NoMemory>
    ensures { OnOk result (string_bytes reply.new
        ≡ string_bytes reply.old ++ box_line id tag.now frame.now.left frame.now.top
        (frame_view frame.now)) }
{
    push_head(reply, id, tag)?;
    push_lengths(reply, frame.left, frame.top)?;
    push_lengths(reply, frame.width, frame.height)?;
    push_lengths(reply, frame.content_width, frame.content_height)?;
    reply.push_str("\n")
}

/// Appends what a box's line begins with: which element it is of.
fn push_head(reply: &mut String, id: NodeId, tag: &str) -> Result<(), NoMemory>
    ensures { OnOk result (string_bytes reply.new ≡ string_bytes reply.old ++ (codes "box"
        ++ (field (decimal id) ++ field tag.now))) }
{
    reply.push_str("box")?;
    push_field(reply, Buffer::new().format(id))?;
    push_field(reply, tag)
}

/// Appends two fields that are lengths, in units.
fn push_lengths(reply: &mut String, a: Units, b: Units) -> Result<(), NoMemory>
    ensures { OnOk result (string_bytes reply.new
        ≡ string_bytes reply.old ++ (field (signed_decimal a) ++ field (signed_decimal b))) }
{
    push_field(reply, Buffer::new().format(a.get()))?;
    push_field(reply, Buffer::new().format(b.get()))
}
