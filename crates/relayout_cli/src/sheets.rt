//! The style sheets of a page.
ghost use Rattle.std.specs.Prelude.{◌≡◌, ◌≤◌, length, [], ◌∷◌, Some, None, false, unwrap_or, OnOk, OnErr, IfOk, IfErr};
ghost use Rattle.std.specs.List.{list_any};
ghost use Rattle.page_model.specs.Refusals.{first_of, IsRefusedBy};
ghost use Rattle.page_model.specs.declared.cause.Cause.TheVariants.{SheetLimit as sheet_limit};
ghost use Rattle.page_model.specs.declared.refusal.Refusal.TheVariants.{NoMemory as no_memory};
ghost use Rattle.request_model.specs.States.{is_over_sheet_limit, are_over_sheet_limits, sheet_causes, sheets_after};
ghost use Rattle.rules_model.specs.Sheets.{style_rules_of};
ghost use Rattle.css_rules.specs.Views.{sheet_view};
ghost use Rattle.relayout_cli.specs.Sheets.{texts_of, kept_rules, text_rules, has_rules, AreParsed};

use css_rules::{Sheet, SheetFault, parse_sheet};
use page_model::Refusal;
use port_core::{Seq, Text};
use rules_model::MAX_SHEETS;
use std::alloc::Global;

/// Parses the style sheets of a load; where it brings none there are none.
pub fn read_sheets(alloc: Global, texts: Option<Seq<Text>>) -> Result<Seq<Sheet>, Refusal>
    ensures texts { IfOk result (λ sheets. texts_of sheets ≡ unwrap_or texts []) }
    ensures parsed { IfOk result (λ sheets. kept_rules sheets ≡ text_rules sheets) }
    ensures allowed { OnOk result (are_over_sheet_limits (unwrap_or texts []) ≡ false) }
    ensures refused { IfErr result
        (IsRefusedBy ((are_over_sheet_limits (unwrap_or texts []), sheet_limit) ∷ [])) }
{
    match texts {
        Some(texts) => read_all_sheets(alloc, texts.as_slice()),
        None => Ok(Seq::new(alloc)),
    }
}

fn read_all_sheets(alloc: Global, texts: &[Text]) -> Result<Seq<Sheet>, Refusal>
    ensures texts { IfOk result (λ sheets. texts_of sheets ≡ texts.now) }
    ensures parsed { IfOk result (λ sheets. kept_rules sheets ≡ text_rules sheets) }
    ensures allowed { OnOk result (are_over_sheet_limits texts.now ≡ false) }
    ensures refused { IfErr result
        (IsRefusedBy ((are_over_sheet_limits texts.now, sheet_limit) ∷ [])) }
{
    if texts.len() > MAX_SHEETS {
        return Err(Refusal::SheetLimit);
    }
    let mut sheets = Seq::new(alloc);
    for text in texts {
        sheets.push(read_sheet(alloc, text)?)?;
    }
    Ok(sheets)
}

/// Parses one style sheet.
fn read_sheet(alloc: Global, text: &Text) -> Result<Sheet, Refusal>
    ensures text { IfOk result (λ sheet. sheet.text ≡ text.now) }
    ensures parsed { IfOk result (λ sheet. sheet_view sheet ≡ style_rules_of sheet.text) }
    ensures allowed { OnOk result (is_over_sheet_limit text.now ≡ false) }
    ensures refused { IfErr result (IsRefusedBy ((is_over_sheet_limit text.now, sheet_limit) ∷ [])) }
{
    match parse_sheet(alloc, text.as_str()) {
        Ok(sheet) => Ok(sheet),
        Err(SheetFault::TooLarge) => Err(Refusal::SheetLimit),
        Err(SheetFault::TooDeep) => Err(Refusal::SheetLimit),
        Err(SheetFault::TooManyRules) => Err(Refusal::SheetLimit),
        Err(SheetFault::NoMemory) => Err(Refusal::NoMemory),
    }
}

/// Puts a style sheet in place of the one at `at` or behind all, or takes that one out.
///
/// Only the new sheet is parsed. All memory is taken before anything is changed.
pub fn change_sheets(
    alloc: Global,
    sheets: &mut Seq<Sheet>,
    at: u64,
    css: Option<Text>,
) -> Result<(), Refusal>
    ensures sheets { OnOk result (texts_of sheets.new ≡ sheets_after at css (texts_of sheets.old)) }
    ensures parsed { AreParsed sheets.old → AreParsed sheets.new }
    ensures allowed { OnOk result (first_of (sheet_causes at css (texts_of sheets.old)) ≡ None) }
    ensures refused { IfErr result (IsRefusedBy (sheet_causes at css (texts_of sheets.old))) }
    ensures kept { OnErr result (sheets.new ≡ sheets.old) }
{
    match css {
        Some(css) => put_sheet(alloc, sheets, at, &css),
        None => take_out_sheet(sheets, at),
    }
}

fn put_sheet(alloc: Global, sheets: &mut Seq<Sheet>, at: u64, css: &Text) -> Result<(), Refusal>
    ensures sheets { OnOk result
        (texts_of sheets.new ≡ sheets_after at (Some css.now) (texts_of sheets.old)) }
    ensures parsed { AreParsed sheets.old → AreParsed sheets.new }
    ensures allowed { OnOk result
        (first_of (sheet_causes at (Some css.now) (texts_of sheets.old)) ≡ None) }
    ensures refused { IfErr result
        (IsRefusedBy (sheet_causes at (Some css.now) (texts_of sheets.old))) }
    ensures kept { OnErr result (sheets.new ≡ sheets.old) }
{
    if at > sheets.len() as u64 {
        return Err(Refusal::NoSheet);
    }
    if at >= MAX_SHEETS as u64 {
        return Err(Refusal::SheetLimit);
    }
    let sheet = read_sheet(alloc, css)?;
    set_sheet(sheets, at as usize, sheet)
}

/// Puts `sheet` in place of the one at `at`, or behind all.
fn set_sheet(sheets: &mut Seq<Sheet>, at: usize, sheet: Sheet) -> Result<(), Refusal>
    requires { at ≤ length sheets.old }
    ensures sheets { OnOk result
        (texts_of sheets.new ≡ sheets_after at (Some sheet.text) (texts_of sheets.old)) }
    ensures parsed { sheet_view sheet ≡ style_rules_of sheet.text
        → AreParsed sheets.old → AreParsed sheets.new }
    ensures memory { IfErr result (λ r. r ≡ no_memory) }
    ensures kept { OnErr result (sheets.new ≡ sheets.old) }
{
    if at < sheets.len() {
        sheets.set(at, sheet);
        return Ok(());
    }
    sheets.push(sheet)?;
    Ok(())
}

fn take_out_sheet(sheets: &mut Seq<Sheet>, at: u64) -> Result<(), Refusal>
    ensures sheets { OnOk result
        (texts_of sheets.new ≡ sheets_after at None (texts_of sheets.old)) }
    ensures parsed { AreParsed sheets.old → AreParsed sheets.new }
    ensures allowed { OnOk result (first_of (sheet_causes at None (texts_of sheets.old)) ≡ None) }
    ensures refused { IfErr result (IsRefusedBy (sheet_causes at None (texts_of sheets.old))) }
    ensures kept { OnErr result (sheets.new ≡ sheets.old) }
{
    if at >= sheets.len() as u64 {
        return Err(Refusal::NoSheet);
    }
    sheets.remove(at as usize);
    Ok(())
}

/// Returns whether one of the sheets has a style rule.
pub fn any_has_rules(sheets: &[Sheet]) -> bool
    ensures { result ≡ list_any has_rules (kept_rules sheets.now) }
{
    for sheet in sheets {
        if has_rules(sheet) {
            return true;
        }
    }
    false
}

fn has_rules(sheet: &Sheet) -> bool
    ensures { result ≡ has_rules (sheet_view sheet.now) }
{
    !sheet.rules.as_slice().is_empty()
}
