//! Execution Reports. FIX 4.4 volume 4, "Execution Report".
ghost use Rattle.std.specs.Prelude.{◌≡◌};
ghost use Rattle.blot_fields.specs.Index.{HasRow};
ghost use Rattle.blot_fields.specs.Messages.{size_part, order_size_of, execution_of, trade_of, correct_of, bust_of, report_of};

use crate::fault::Wrong;
use crate::index::FieldIndex;
use crate::kinds::{ExecType, exec_type_of};
use crate::rows::{has, needed, optional, positive, there};
use crate::text::Text;
use blot_decimal::{Price, Qty};
use blot_time::{Day, Moment};
use blot_types::Sign;

/// What an Execution Report (35=8) says.
#[derive(Debug, PartialEq, Eq, Drop)]
pub enum Report<'a> {
    /// ExecType(150) `F`: a fill.
    Trade(Execution<'a>),
    /// ExecType `G`: another version of an earlier fill, which ExecRefID(19) names.
    Correct {
        reference: Text<'a>,
        execution: Execution<'a>,
    },
    /// ExecType `H`: the end of an earlier fill, which ExecRefID(19) names.
    Bust {
        id: Text<'a>,
        reference: Text<'a>,
    },
    /// Any other ExecType. Its other fields aren't read.
    Other,
}

/// A fill, as a broker reports it.
#[derive(Debug, PartialEq, Eq, Drop)]
pub struct Execution<'a> {
    /// OrderID(37).
    pub order: Text<'a>,
    /// ExecID(17).
    pub id: Text<'a>,
    /// Side(54).
    pub sign: Sign,
    pub size: OrderSize,
    /// Symbol(55).
    pub symbol: Text<'a>,
    /// LastQty(32), above 0.
    pub qty: Qty,
    /// LastPx(31).
    pub price: Price,
    /// Account(1).
    pub account: Option<Text<'a>>,
    /// TransactTime(60).
    pub transacted: Option<Moment>,
    /// TradeDate(75).
    pub trade_date: Option<Day>,
}

/// What a report says of the size of its order.
#[derive(Clone, Copy, Debug, PartialEq, Eq)]
pub enum OrderSize {
    /// OrderQty(38).
    Given(Qty),
    /// Without OrderQty: CumQty(14) and LeavesQty(151).
    Filled { cum: Qty, leaves: Qty },
}

/// Reads an Execution Report.
#[tactic(auto, unfolding(crate::specs::Messages::report_of))]
pub(crate) fn report_of<'a>(fields: &FieldIndex<'a, '_>) -> Result<Report<'a>, Wrong>
    ensures { result ≡ report_of fields.now }
{
    match exec_type_of(there(fields, 150)?) {
        ExecType::Trade => trade_of(fields),
        ExecType::Correct => correct_of(fields),
        ExecType::Bust => bust_of(fields),
        ExecType::Other => Ok(Report::Other),
    }
}

// A fill.
#[tactic(auto, unfolding(crate::specs::Messages::trade_of))]
fn trade_of<'a>(fields: &FieldIndex<'a, '_>) -> Result<Report<'a>, Wrong>
    ensures { result ≡ trade_of fields.now }
{
    let order = needed::<Text>(fields, 37)?;
    let id = needed::<Text>(fields, 17)?;
    let execution = execution_of(order, id, fields)?;
    Ok(Report::Trade(execution))
}

// Another version of an earlier fill.
#[tactic(auto, unfolding(crate::specs::Messages::correct_of))]
fn correct_of<'a>(fields: &FieldIndex<'a, '_>) -> Result<Report<'a>, Wrong>
    ensures { result ≡ correct_of fields.now }
{
    let order = needed::<Text>(fields, 37)?;
    let id = needed::<Text>(fields, 17)?;
    let reference = needed::<Text>(fields, 19)?;
    let execution = execution_of(order, id, fields)?;
    Ok(Report::Correct {
        reference,
        execution,
    })
}

// The end of an earlier fill.
#[tactic(auto, unfolding(crate::specs::Messages::bust_of))]
fn bust_of<'a>(fields: &FieldIndex<'a, '_>) -> Result<Report<'a>, Wrong>
    ensures { result ≡ bust_of fields.now }
{
    let id = needed::<Text>(fields, 17)?;
    let reference = needed::<Text>(fields, 19)?;
    Ok(Report::Bust { id, reference })
}

// A fill, after the identifiers of the order and the execution.
#[tactic(auto, unfolding(crate::specs::Messages::execution_of))]
fn execution_of<'a>(
    order: Text<'a>,
    id: Text<'a>,
    fields: &FieldIndex<'a, '_>,
) -> Result<Execution<'a>, Wrong>
    ensures { result ≡ execution_of order.entry id.entry fields.now }
{
    there(fields, 39)?;
    there(fields, 6)?;
    let sign = needed::<Sign>(fields, 54)?;
    let cum = size_part(fields, 14)?;
    let leaves = size_part(fields, 151)?;
    let symbol = needed::<Text>(fields, 55)?;
    let qty = positive(fields, 32)?;
    let price = needed::<Price>(fields, 31)?;
    let account = optional::<Text>(fields, 1)?;
    let size = order_size_of(cum, leaves, fields)?;
    let transacted = optional::<Moment>(fields, 60)?;
    let trade_date = optional::<Day>(fields, 75)?;
    Ok(Execution {
        order,
        id,
        sign,
        size,
        symbol,
        qty,
        price,
        account,
        transacted,
        trade_date,
    })
}

// CumQty or LeavesQty, whose value isn't read where there is an OrderQty.
#[tactic(auto, unfolding(crate::specs::Messages::size_part))]
fn size_part(fields: &FieldIndex, tag: u32) -> Result<Option<Qty>, Wrong>
    requires { HasRow tag }
    ensures { result ≡ size_part tag fields.now }
{
    if has(fields, 38) {
        there(fields, tag)?;
        return Ok(None);
    }
    Ok(Some(needed::<Qty>(fields, tag)?))
}

// CumQty and LeavesQty, where they were read, and else OrderQty.
#[tactic(auto, unfolding(crate::specs::Messages::order_size_of))]
fn order_size_of(
    cum: Option<Qty>,
    leaves: Option<Qty>,
    fields: &FieldIndex,
) -> Result<OrderSize, Wrong>
    ensures { result ≡ order_size_of cum leaves fields.now }
{
    match (cum, leaves) {
        (Some(cum), Some(leaves)) => Ok(OrderSize::Filled { cum, leaves }),
        _ => Ok(OrderSize::Given(needed::<Qty>(fields, 38)?)),
    }
}
