//! What `allocate` asks.
ghost use Rattle.std.specs.Prelude.{◌≡◌, ◌+◌, ◌*◌, ◌≤◌, drop, length, IfOk, IfSome, pos};
ghost use Rattle.blot_decimal.specs.Meaning.{qty_units};
ghost use Rattle.blot_types.specs.ItemsBuilder.{Makes, IsShort};
ghost use Rattle.blot_types.specs.declared.TheConstants.{ITEMS_MAX};
ghost use Rattle.blot_console.specs.Allocate.{are_pairs, execs_counted, execs_of, line_of, lines_of, allocate_line};
ghost use Rattle.blot_console.specs.Asks.{Gives};
ghost use Rattle.blot_console.specs.Block.{MakesBlock};

use crate::Ask;
use crate::fault::{Refusal, Wrong};
use crate::forms::{Form, count_form};
use crate::rows::{at, value_at};
use crate::words::Words;
use blot_decimal::{Price, Qty};
use blot_desk::Event;
use blot_time::Day;
use blot_types::{
    AllocKey, AllocNew, Command, ExecKey, ITEMS_MAX, ItemsBuilder, Line, Sign, Terms, Text64,
};
use std::alloc::Global;

// Where the ExecIDs begin: after peer, AllocID, symbol, sign, day, price and n.
const EXECS_PLACE: usize = 8;

// The lines of an allocation in the making, and the sum of their quantities.
#[derive(Drop)]
struct Block {
    lines: ItemsBuilder<Line>,
    // In units of 10^-6; the largest `u64` where it is larger.
    sum: u64,
}

/// `allocate peer allocid symbol sign day price n`, n ExecIDs and pairs `account qty`. Its lists take memory; that there
/// was none is told only where nothing is at fault.
#[tactic(auto, unfolding(crate::specs::Allocate::allocate_line))]
pub(crate) fn allocate_line(alloc: Global, words: &Words) -> Result<Ask, Refusal>
    ensures { Gives result (allocate_line words.now) }
{
    let counted = execs_counted(words)?;
    let peer = value_at::<Text64>(words, 1)?;
    let id = value_at::<Text64>(words, 2)?;
    let symbol = value_at::<Text64>(words, 3)?;
    let sign = value_at::<Sign>(words, 4)?;
    let day = value_at::<Day>(words, 5)?;
    let price = value_at::<Price>(words, 6)?;
    let count = at(7, counted)?;
    let execs = execs_of(alloc, peer, words.behind(EXECS_PLACE).first(count))?;
    let place = EXECS_PLACE + count;
    let block = lines_of(alloc, price, place, words.behind(place))?;
    let qty = at(words.count().saturating_sub(1), Qty::from_units(block.sum))?;
    Ok(Ask::Step(Event::Submit(Command::AllocNew(AllocNew {
        key: AllocKey { peer, id },
        terms: Terms {
            symbol,
            sign,
            day,
            block: qty,
            execs: execs.finish()?,
            lines: block.lines.finish()?,
        },
    }))))
}

// Whether so many words are pairs, as many as an allocation may have lines.
fn are_pairs(count: usize) -> bool
    ensures { result ≡ are_pairs count }
{
    count % 2 == 0 && 2 <= count && count <= 2 * ITEMS_MAX
}

// n, if it can be read, in a line of as many words as it says.
#[tactic(auto, unfolding(crate::specs::Allocate::execs_counted))]
fn execs_counted(words: &Words) -> Result<Option<usize>, Wrong>
    ensures value { result ≡ execs_counted words.now }
    ensures range { IfOk result (λ counted. IfSome counted (λ count. count ≤ ITEMS_MAX)) }
    ensures few { IfOk result (λ counted. IfSome counted (λ count. length (drop (EXECS_PLACE + count) words.now) ≤ 2 * ITEMS_MAX)) }
{
    let total = words.count();
    if total < EXECS_PLACE {
        return Err(Wrong::WrongCount);
    }
    let Some(count) = count_form(words.at(7)) else {
        return Ok(None);
    };
    if !are_pairs(total.saturating_sub(EXECS_PLACE + count)) {
        return Err(Wrong::WrongCount);
    }
    Ok(Some(count))
}

// The executions of a peer, by their ExecIDs.
fn execs_of(alloc: Global, peer: Text64, words: Words) -> Result<ItemsBuilder<ExecKey>, Wrong>
    requires { length words ≤ ITEMS_MAX }
    ensures made { Makes result (execs_of peer EXECS_PLACE words.entry) }
    ensures few { IfOk result IsShort }
{
    let mut execs = ItemsBuilder::new(alloc);
    let mut place = EXECS_PLACE;
    for word in words {
        let id = at(place, Text64::from_word(word))?;
        execs.push(ExecKey { peer, id });
        place += 1;
    }
    Ok(execs)
}

// The line at a price of the pair at a place.
#[tactic(auto, unfolding(crate::specs::Allocate::line_of))]
fn line_of(price: Price, place: usize, first: &[u8], second: &[u8]) -> Result<Line, Wrong>
    requires { place ≤ 3 * ITEMS_MAX + EXECS_PLACE }
    ensures { result ≡ line_of price place first.now second.now }
{
    let account = at(place, Text64::from_word(first))?;
    let qty = at(place + 1, Qty::from_word(second))?;
    Ok(Line {
        account,
        qty,
        price,
    })
}

// The lines at a price, by their pairs from a place on.
fn lines_of(alloc: Global, price: Price, place: usize, words: Words) -> Result<Block, Wrong>
    requires place { place ≤ EXECS_PLACE + ITEMS_MAX }
    requires few { length words ≤ 2 * ITEMS_MAX }
    ensures made { MakesBlock result (lines_of price place words.entry) }
    ensures few { IfOk result (λ block. IsShort block.lines) }
{
    let mut lines = ItemsBuilder::new(alloc);
    let mut sum: u64 = 0;
    let mut place = place;
    let mut words = words;
    while let Some((first, second)) = words.next_pair() {
        let line = line_of(price, place, first, second)?;
        sum = sum.saturating_add(line.qty.units());
        lines.push(line);
        place += 2;
    }
    Ok(Block { lines, sum })
}
