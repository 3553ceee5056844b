//! Allocation Instructions. FIX 4.4 volume 5, "Allocation Instruction".
ghost use Rattle.std.specs.Prelude.{◌≡◌, IfOk, option_map};
ghost use Rattle.blot_tag.specs.Views.{tag_value};
ghost use Rattle.blot_types.specs.ItemsBuilder.{Makes, IsShort};
ghost use Rattle.blot_fields.specs.Drafts.{draft_of, next_draft, Pushes, NextLine};
ghost use Rattle.blot_fields.specs.Allocations.{allocation_of, terms_of};
ghost use Rattle.blot_fields.specs.Faults.{Gives};
ghost use Rattle.blot_fields.specs.Groups.{average_of, executions_of, lines_of, ids_of, each_line_of, lines_in};
ghost use Rattle.blot_fields.specs.Looks.{IsLook};
ghost use Rattle.blot_fields.specs.Rows.{values};

use crate::drafts::LineDraft;
use crate::fault::{Flaw, Refusal, Wrong};
use crate::forms::Form;
use crate::groups::{Look, behind, look_over};
use crate::index::FieldIndex;
use crate::kinds::AllocType;
use crate::rows::{at, needed, number, there};
use crate::sound::SoundFields;
use crate::text::Text;
use blot_decimal::{Price, Qty};
use blot_tag::Field;
use blot_time::Day;
use blot_types::{ITEMS_MAX, Items, ItemsBuilder, Sign};
use std::alloc::Global;

// The most entries of a group: the most items of a list.
const ENTRIES_MAX: u64 = ITEMS_MAX as u64;

/// What an Allocation Instruction (35=J) says.
#[derive(Debug, Drop)]
pub enum Allocation<'a> {
    /// AllocTransType(71) 0.
    New {
        id: Text<'a>,
        terms: AllocationTerms<'a>,
    },
    /// AllocTransType 1, of the allocation that RefAllocID(72) names.
    Replace {
        id: Text<'a>,
        reference: Text<'a>,
        terms: AllocationTerms<'a>,
    },
    /// AllocTransType 2, of the allocation that RefAllocID names. Its other fields aren't read.
    Cancel {
        id: Text<'a>,
        reference: Text<'a>,
    },
}

/// What is allocated, and to whom.
#[derive(Debug, Drop)]
pub struct AllocationTerms<'a> {
    /// Side(54).
    pub sign: Sign,
    /// Symbol(55).
    pub symbol: Text<'a>,
    /// Quantity(53).
    pub block: Qty,
    /// TradeDate(75).
    pub day: Day,
    /// The ExecID(17) of each execution, 1 to 200 of them.
    pub executions: Items<Text<'a>>,
    /// 1 to 200 lines.
    pub lines: Items<AllocationLine<'a>>,
}

/// What is allocated to one account.
#[derive(Debug, Drop)]
pub struct AllocationLine<'a> {
    /// AllocAccount(79).
    pub account: Text<'a>,
    /// AllocQty(80).
    pub qty: Qty,
    /// AllocPrice(366), or else AvgPx(6).
    pub price: Price,
}

/// Reads an Allocation Instruction. Its lists take memory; that there was none is told only where nothing is at
/// fault.
#[tactic(auto, unfolding(crate::specs::Allocations::allocation_of))]
pub(crate) fn allocation_of<'a>(
    alloc: Global,
    fields: &FieldIndex<'a, '_>,
) -> Result<Allocation<'a>, Refusal>
    ensures { Gives result (allocation_of fields.now) }
{
    let id = needed::<Text>(fields, 70)?;
    match needed::<AllocType>(fields, 71)? {
        AllocType::New => {
            let terms = terms_of(alloc, fields)?;
            Ok(Allocation::New { id, terms })
        }
        AllocType::Replace => {
            let reference = needed::<Text>(fields, 72)?;
            let terms = terms_of(alloc, fields)?;
            Ok(Allocation::Replace {
                id,
                reference,
                terms,
            })
        }
        AllocType::Cancel => {
            let reference = needed::<Text>(fields, 72)?;
            Ok(Allocation::Cancel { id, reference })
        }
    }
}

// What is allocated, and to whom.
#[tactic(auto, unfolding(crate::specs::Allocations::terms_of))]
fn terms_of<'a>(alloc: Global, fields: &FieldIndex<'a, '_>) -> Result<AllocationTerms<'a>, Refusal>
    ensures { Gives result (terms_of fields.now) }
{
    let sign = needed::<Sign>(fields, 54)?;
    let symbol = needed::<Text>(fields, 55)?;
    let block = needed::<Qty>(fields, 53)?;
    let look = look_over(fields.walk());
    let average = average_of(look, fields)?;
    let day = needed::<Day>(fields, 75)?;
    let executions = executions_of(alloc, look, fields)?;
    let lines = lines_of(alloc, look, &average, fields)?;
    Ok(AllocationTerms {
        sign,
        symbol,
        block,
        day,
        executions: executions.finish()?,
        lines: lines.finish()?,
    })
}

// AvgPx, whose value is read only where some line has no AllocPrice.
#[tactic(auto, unfolding(crate::specs::Groups::average_of))]
fn average_of(look: Look, fields: &FieldIndex) -> Result<Option<Price>, Wrong>
    requires { IsLook look fields.now }
    ensures { result ≡ average_of fields.now }
{
    if look.some_line_lacks_price() {
        return Ok(Some(needed::<Price>(fields, 6)?));
    }
    there(fields, 6)?;
    Ok(None)
}

// NoExecs and the executions.
#[tactic(auto, unfolding(crate::specs::Groups::executions_of))]
fn executions_of<'a>(
    alloc: Global,
    look: Look,
    fields: &FieldIndex<'a, '_>,
) -> Result<ItemsBuilder<Text<'a>>, Wrong>
    requires { IsLook look fields.now }
    ensures made { Makes result (executions_of fields.now) }
    ensures few { IfOk result IsShort }
{
    let count = number(fields, 124, 1, ENTRIES_MAX)?;
    if !look.are_executions(count) {
        return Err(Wrong::new(124, Flaw::IncorrectGroupCount));
    }
    ids_of(alloc, fields)
}

// NoAllocs and the lines.
#[tactic(auto, unfolding(crate::specs::Groups::lines_of))]
fn lines_of<'a>(
    alloc: Global,
    look: Look,
    average: &Option<Price>,
    fields: &FieldIndex<'a, '_>,
) -> Result<ItemsBuilder<AllocationLine<'a>>, Wrong>
    requires { IsLook look fields.now }
    ensures made { Makes result (lines_of average.now fields.now) }
    ensures few { IfOk result IsShort }
{
    let count = number(fields, 78, 1, ENTRIES_MAX)?;
    if !look.are_lines(count) {
        return Err(Wrong::new(78, Flaw::IncorrectGroupCount));
    }
    each_line_of(alloc, average, behind(78, fields.walk()))
}

// The ExecIDs among the fields.
fn ids_of<'a>(alloc: Global, fields: &FieldIndex<'a, '_>) -> Result<ItemsBuilder<Text<'a>>, Wrong>
    ensures { Makes result (ids_of (values 17 fields.now)) }
{
    let mut ids = ItemsBuilder::new(alloc);
    for field in fields.walk() {
        if field.tag == 17 {
            ids.push(at(17, Text::from_value(field.value))?);
        }
    }
    Ok(ids)
}

// The lines among the fields after NoAllocs.
fn each_line_of<'a>(
    alloc: Global,
    average: &Option<Price>,
    fields: SoundFields<'a>,
) -> Result<ItemsBuilder<AllocationLine<'a>>, Wrong>
    ensures { Makes result (each_line_of average.now (lines_in fields.entry)) }
{
    let mut lines = ItemsBuilder::new(alloc);
    let mut line: Option<LineDraft> = None;
    for field in fields {
        line = next_line(average, line, field, &mut lines)?;
    }
    push_line(average, line, &mut lines)?;
    Ok(lines)
}

// The line that stays open after a field. An AllocAccount begins one and ends the one before; any
// other field goes on with the open line, if there is one.
fn next_line<'a>(
    average: &Option<Price>,
    line: Option<LineDraft<'a>>,
    field: Field<'a>,
    lines: &mut ItemsBuilder<AllocationLine<'a>>,
) -> Result<Option<LineDraft<'a>>, Wrong>
    ensures { NextLine average.now (option_map draft_of line.entry) (tag_value field.entry)
        lines.old (next_draft result) lines.new }
{
    if field.tag == 79 {
        push_line(average, line, lines)?;
        return Ok(Some(LineDraft::new(field.value)));
    }
    match line {
        Some(draft) => Ok(Some(draft.with(field))),
        None => Ok(None),
    }
}

// Adds the open line, if there is one, after the others.
fn push_line<'a>(
    average: &Option<Price>,
    line: Option<LineDraft<'a>>,
    lines: &mut ItemsBuilder<AllocationLine<'a>>,
) -> Result<(), Wrong>
    ensures { Pushes average.now (option_map draft_of line.entry) lines.old result lines.new }
{
    if let Some(draft) = line {
        lines.push(draft.line(*average)?);
    }
    Ok(())
}
