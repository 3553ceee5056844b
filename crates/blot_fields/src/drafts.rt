//! Lines of an allocation while their fields come.
ghost use Rattle.std.specs.Prelude.{◌≡◌};
ghost use Rattle.blot_tag.specs.Views.{tag_value};
ghost use Rattle.blot_fields.specs.Forms.{price_form};
ghost use Rattle.blot_fields.specs.Rows.{optional_in};
ghost use Rattle.blot_fields.specs.Occurrences.{found_in};

use crate::allocation::AllocationLine;
use crate::fault::{Flaw, Wrong};
use crate::forms::Form;
use crate::occurrence::Occurrence;
use crate::rows::at;
use crate::text::Text;
use blot_decimal::{Price, Qty};
use blot_tag::Field;

/// A line whose fields are still to come: AllocAccount(79), AllocQty(80) and AllocPrice(366).
#[derive(Clone, Copy)]
pub(crate) struct LineDraft<'a> {
    account: &'a [u8],
    qty: Occurrence<'a>,
    price: Occurrence<'a>,
}

impl<'a> LineDraft<'a> {
    ghost use Rattle.blot_fields.specs.Drafts.{draft_of, begun, with_field, line_from};

    /// A line that begins at its AllocAccount.
    pub(crate) fn new(account: &'a [u8]) -> LineDraft<'a>
        ensures { draft_of result ≡ begun account.now }
    {
        LineDraft {
            account,
            qty: Occurrence::Missing,
            price: Occurrence::Missing,
        }
    }

    /// The line with one field more.
    pub(crate) fn with(self, field: Field<'a>) -> LineDraft<'a>
        ensures { draft_of result ≡ with_field (draft_of self.entry) (tag_value field.entry) }
    {
        match field.tag {
            80 => LineDraft {
                qty: self.qty.with(field.value),
                ..self
            },
            366 => LineDraft {
                price: self.price.with(field.value),
                ..self
            },
            _ => self,
        }
    }

    /// The line, where no field of it is to come; without an AllocPrice it takes the average.
    #[tactic(auto, unfolding(crate::specs::Drafts::line_from))]
    pub(crate) fn line(self, average: Option<Price>) -> Result<AllocationLine<'a>, Wrong>
        ensures { result ≡ line_from average (draft_of self.entry) }
    {
        let account = at(79, Text::from_value(self.account))?;
        let qty = at(80, self.qty.lone())?.ok_or(Wrong::new(80, Flaw::RequiredTagMissing))?;
        let qty = at(80, Qty::from_value(qty))?;
        let own = own_price(self.price)?;
        let price = own
            .or(average)
            .ok_or(Wrong::new(366, Flaw::RequiredTagMissing))?;
        Ok(AllocationLine {
            account,
            qty,
            price,
        })
    }
}

// A line's own price, if it has one.
fn own_price(price: Occurrence) -> Result<Option<Price>, Wrong>
    ensures { result ≡ optional_in 366 price_form (found_in price.entry) }
{
    match at(366, price.lone())? {
        None => Ok(None),
        Some(value) => Ok(Some(at(366, Price::from_value(value))?)),
    }
}
