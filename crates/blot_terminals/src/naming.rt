//! The lines of an operator's connection until it has a name.
ghost use Rattle.std.specs.Prelude.{◌≡◌, IfOk, IfSome, OnOk};
ghost use Rattle.std.specs.Io.KnownBytes.{Appends};
ghost use Rattle.blot_console.specs.Naming.{name_parsed, naming_text};
ghost use Rattle.blot_terminals.specs.Naming.{IsNaming, TellsName};

use crate::{NameFault, Operators};
use blot_console::{Naming, naming_text, parse_name};
use blot_gateway::READS_MAX;
use blot_operator::{OperatorSeat, keep_byte};
use blot_stream::{ReplayFault, read_piece, write_text};
use blot_types::Text64;
use std::alloc::{AllocError as NoMemory, Global};
use std::io::{Read, Write};
use std::sync::Wait;
use std::sync::ledger::Ledger;
use std::thread;
use std::time::{Clock, Duration};

// How often it is looked whether an operator who is on goes, and how many milliseconds lie between two looks: one who comes back at once
// needs no second try.
const LOOKS: u32 = 10;

const LOOK_PAUSE: u64 = 100;

/// Has a connection named: each of its lines is answered, until one gives it the name of an operator who isn't on. That operator's seat, or
/// none at the end of the input.
pub(crate) fn named_seat<R: Wait + Clock, I: Read, O: Write, L: Ledger>(
    rt: &R,
    alloc: Global,
    operators: &Operators<L>,
    input: &mut I,
    output: &mut O,
) -> Result<Option<OperatorSeat<L>>, ReplayFault>
    ensures { IfOk result (λ given. IfSome given (λ seat. TellsName seat.name (O.contents output.old) (O.contents output.new))) }
{
    let mut line = Vec::new(alloc);
    for _ in 0..READS_MAX {
        if !read_line(input, &mut line)? {
            return Ok(None);
        }
        let (naming, seat) = naming_by(rt, operators, &line)?;
        let told = tell(alloc, output, &naming);
        match (told, seat) {
            (Ok(()), Some(seat)) => return Ok(Some(seat)),
            (Ok(()), None) => {}
            (Err(fault), Some(seat)) => {
                operators.give_back(rt, seat);
                return Err(fault);
            }
            (Err(fault), None) => return Err(fault),
        }
    }
    Err(ReplayFault::TooLong)
}

// Writes the answer to a line.
fn tell<O: Write>(alloc: Global, output: &mut O, naming: &Naming) -> Result<(), ReplayFault>
    ensures { OnOk result (Appends (O.contents output.old) (O.contents output.new) (naming_text naming.now)) }
{
    let text = naming_text(alloc, naming)?;
    write_text(output, &text)
}

// What a line is answered, and the seat of the operator where it is given.
fn naming_by<R: Wait + Clock, L: Ledger>(
    rt: &R,
    operators: &Operators<L>,
    line: &[u8],
) -> Result<(Naming, Option<OperatorSeat<L>>), NoMemory>
    ensures { IfOk result (λ given. IsNaming (name_parsed line.now) given.0 given.1) }
{
    let name = match parse_name(line) {
        Ok(name) => name,
        Err(fault) => return Ok((Naming::Bad(fault), None)),
    };
    match take_soon(rt, operators, name) {
        Ok(seat) => Ok((Naming::Named(name), Some(seat))),
        Err(NameFault::Taken) => Ok((Naming::Taken, None)),
        Err(NameFault::Full) => Ok((Naming::Full, None)),
        Err(NameFault::NoMemory) => Err(NoMemory),
    }
}

// Takes an operator's seat. Where the operator is on, it is looked again for a second.
fn take_soon<R: Wait + Clock, L: Ledger>(
    rt: &R,
    operators: &Operators<L>,
    name: Text64,
) -> Result<OperatorSeat<L>, NameFault>
    ensures { IfOk result (λ seat. seat.name ≡ name) }
{
    for _ in 0..LOOKS {
        match operators.take(rt, name) {
            Err(NameFault::Taken) => {
                let _ = thread::sleep(rt, Duration::from_millis(LOOK_PAUSE));
            }
            given => return given,
        }
    }
    operators.take(rt, name)
}

// Reads a line, without its end. False at the end of the input.
fn read_line<I: Read>(input: &mut I, line: &mut Vec<u8>) -> Result<bool, ReplayFault> {
    line.clear();
    let mut byte = [0u8];
    for _ in 0..READS_MAX {
        match read_piece(input, &mut byte)? {
            None => return Ok(false),
            Some(0) => {}
            Some(_) => {
                if byte[0] == b'\n' {
                    return Ok(true);
                }
                keep_byte(line, byte[0])?;
            }
        }
    }
    Err(ReplayFault::TooLong)
}
