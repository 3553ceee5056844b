//! `ask`: the lines of an input, each asked of a served day and answered before the next.
ghost use Rattle.std.specs.Prelude.{◌≡◌, ◌==◌, [], codes, length, not, Err, IfErr, IfOk, OnErr, OnOk, if◌then◌else◌};
ghost use Rattle.std.specs.Io.KnownBytes.{Appends, Consumes, IsAtEnd, Keeps};
ghost use Rattle.blot_stream.specs.Texts.{AppendsFront, AppendsFrontOf, AppendsOf};
ghost use Rattle.blot_ask.specs.Asking.{IsAnsweredBy, IsAsked, IsLate, IsTalked, IsTurnedAwayBy, TalksOn, TellsAnswer, TellsLine, naming, prompt_by, requests_of, sent_by};
ghost use Rattle.blot_ask.specs.Lines.{TakesInput, is_blank, unread, with_end};

use crate::ahead::Ahead;
use crate::answers::{is_complete, is_word};
use crate::fault::AskFault;
use crate::typing::typed;
use blot_stream::{ReplayFault, write_text};
use blot_types::Text64;
use std::alloc::{AllocError as NoMemory, Global};
use std::io::{Read, Write};

/// Says a name to a served day, and then asks it the lines of the input, as they are typed: each is sent, and all lines of its answer are
/// written and flushed before the next is read. A line without a word is passed over. With `prompts` a prompt is written
/// before each line is read, and an LF behind the last. What is written to `requests` goes to the server, and `answers` gives
/// what comes of it.
///
/// Taken and Full: the server doesn't let the name in. Strange: it answers the name otherwise. Nothing is read of the input
/// then, and nothing is written to the output.
pub fn ask<I: Read, O: Write, Q: Write, A: Read>(
    alloc: Global,
    name: &Text64,
    prompts: bool,
    input: &mut I,
    output: &mut O,
    requests: &mut Q,
    answers: &mut A,
) -> Result<(), AskFault>
    ensures asked { OnOk result (IsAsked name.now prompts (I.remaining input.old) (Q.contents requests.old) (Q.contents requests.new)
        (A.remaining answers.old) (A.remaining answers.new) (O.contents output.old) (O.contents output.new)) }
    ensures read_to_the_end { OnOk result (IsAtEnd (I.remaining input.new)) }

    // What is sent is the name and the lines, and a front of that after a fault.
    ensures sent { OnOk result (AppendsOf (sent_by name.now) (I.remaining input.old) (Q.contents requests.old) (Q.contents requests.new)) }
    ensures fault { OnErr result (AppendsFrontOf (sent_by name.now) (I.remaining input.old) (Q.contents requests.old) (Q.contents requests.new)) }
    ensures taken { result ≡ Err AskFault.Taken → IsTurnedAwayBy (codes "taken") name.now (Q.contents requests.old) (Q.contents requests.new)
        (A.remaining answers.old) (A.remaining answers.new) }
    ensures full { result ≡ Err AskFault.Full → IsTurnedAwayBy (codes "full") name.now (Q.contents requests.old) (Q.contents requests.new)
        (A.remaining answers.old) (A.remaining answers.new) }
    ensures turned_away { IfErr result (λ fault. (IsLate fault → ⊥) → (input.new ≡ input.old) × (output.new ≡ output.old)) }
{
    let mut came = Ahead::new(alloc)?;
    let mut line = Vec::new(alloc);
    enter(alloc, name, requests, answers, &mut came, &mut line)?;
    talk(
        alloc, prompts, input, output, requests, answers, &mut came, &mut line,
    )
}

// Says a name, and is let in or isn't.
fn enter<Q: Write, A: Read>(
    alloc: Global,
    name: &Text64,
    requests: &mut Q,
    answers: &mut A,
    came: &mut Ahead,
    line: &mut Vec<u8>,
) -> Result<(), AskFault>
    ensures let_in { OnOk result (IsAnsweredBy (naming name.now) name.now (Q.contents requests.old) (Q.contents requests.new)
        (unread came.old (A.remaining answers.old)) (unread came.new (A.remaining answers.new))) }
    ensures fault { OnErr result (AppendsFront (Q.contents requests.old) (Q.contents requests.new) (with_end (naming name.now))) }
    ensures taken { result ≡ Err AskFault.Taken → IsAnsweredBy (codes "taken") name.now (Q.contents requests.old) (Q.contents requests.new)
        (unread came.old (A.remaining answers.old)) (unread came.new (A.remaining answers.new)) }
    ensures full { result ≡ Err AskFault.Full → IsAnsweredBy (codes "full") name.now (Q.contents requests.old) (Q.contents requests.new)
        (unread came.old (A.remaining answers.old)) (unread came.new (A.remaining answers.new)) }
{
    let mut naming = naming_of(alloc, name)?;
    send(requests, &mut naming)?;
    take_answer(answers, came, line)?;
    if is_word(line, &naming) {
        Ok(())
    } else if is_word(line, b"taken") {
        Err(AskFault::Taken)
    } else if is_word(line, b"full") {
        Err(AskFault::Full)
    } else {
        Err(AskFault::Strange)
    }
}

// The line that says a name.
fn naming_of(alloc: Global, name: &Text64) -> Result<Vec<u8>, NoMemory>
    ensures { IfOk result (λ text. text.items ≡ naming name.now) }
{
    let mut text = Vec::new(alloc);
    text.extend_from_slice(b"operator\t")?;
    text.extend_from_slice(name.bytes())?;
    Ok(text)
}

// Asks the lines of an input to its end.
fn talk<I: Read, O: Write, Q: Write, A: Read>(
    alloc: Global,
    prompts: bool,
    input: &mut I,
    output: &mut O,
    requests: &mut Q,
    answers: &mut A,
    came: &mut Ahead,
    line: &mut Vec<u8>,
) -> Result<(), AskFault>
    ensures talked { OnOk result (IsTalked prompts (I.remaining input.old) (Q.contents requests.old) (Q.contents requests.new)
        (unread came.old (A.remaining answers.old)) (unread came.new (A.remaining answers.new)) (O.contents output.old) (O.contents output.new)) }
    ensures read_to_the_end { OnOk result (IsAtEnd (I.remaining input.new)) }
    ensures fault { OnErr result (AppendsFrontOf requests_of (I.remaining input.old) (Q.contents requests.old) (Q.contents requests.new)) }
    ensures late { IfErr result IsLate }
{
    let mut ahead = Ahead::new(alloc)?;
    for _ in 0..u64::MAX {
        let more = turn(
            alloc, prompts, input, &mut ahead, output, requests, answers, came, line,
        )?;
        if !more {
            return Ok(());
        }
    }
    Err(AskFault::Input)
}

// Takes a line of the input, and has it answered. False at the end of the input.
fn turn<I: Read, O: Write, Q: Write, A: Read>(
    alloc: Global,
    prompts: bool,
    input: &mut I,
    ahead: &mut Ahead,
    output: &mut O,
    requests: &mut Q,
    answers: &mut A,
    came: &mut Ahead,
    line: &mut Vec<u8>,
) -> Result<bool, AskFault>
    ensures talks { IfOk result (λ more. TalksOn more prompts (unread ahead.old (I.remaining input.old)) (unread ahead.new (I.remaining input.new))
        (Q.contents requests.old) (Q.contents requests.new)
        (unread came.old (A.remaining answers.old)) (unread came.new (A.remaining answers.new)) (O.contents output.old) (O.contents output.new)) }
    ensures fault { OnErr result (AppendsFrontOf requests_of (unread ahead.old (I.remaining input.old))
        (Q.contents requests.old) (Q.contents requests.new)) }
    ensures late { IfErr result IsLate }
{
    show_where(prompts, output, b"blotter> ")?;
    if !take_input(input, ahead, line)? {
        show_where(prompts, output, b"\n")?;
        return Ok(false);
    }
    if is_blank(line) {
        return Ok(true);
    }
    let mut asked = typed(alloc, line)?;
    send(requests, &mut asked)?;
    tell_answer(&asked, output, answers, came, line)?;
    Ok(true)
}

// Takes a line of the input. False at its end.
fn take_input<I: Read>(
    input: &mut I,
    ahead: &mut Ahead,
    line: &mut Vec<u8>,
) -> Result<bool, AskFault>
    ensures taken { IfOk result (λ more. TakesInput more (unread ahead.old (I.remaining input.old)) (unread ahead.new (I.remaining input.new)) line.new.items) }
    ensures late { IfErr result IsLate }
{
    match ahead.next_line(input, line) {
        Ok(ended) => Ok(ended || has_bytes(line)),
        Err(ReplayFault::NoMemory) => Err(AskFault::NoMemory),
        Err(_) => Err(AskFault::Input),
    }
}

// Whether a line is more than nothing.
fn has_bytes(line: &[u8]) -> bool
    ensures { result ≡ not (length line.now == 0) }
{
    !line.is_empty()
}

// Whether a line has no word.
fn is_blank(line: &[u8]) -> bool
    ensures { result ≡ is_blank line.now }
{
    line.iter().all(|byte| *byte == b' ')
}

// Sends a line. The LF that ends it goes with it in one write.
fn send<Q: Write>(requests: &mut Q, line: &mut Vec<u8>) -> Result<(), AskFault>
    ensures sent { OnOk result (Appends (Q.contents requests.old) (Q.contents requests.new) (with_end line.old.items)) }
    ensures kept { OnOk result (line.new.items ≡ line.old.items) }
    ensures fault { OnErr result (AppendsFront (Q.contents requests.old) (Q.contents requests.new) (with_end line.old.items)) }
    ensures late { IfErr result IsLate }
{
    line.push(b'\n')?;
    match write_text(requests, line) {
        Ok(()) => {
            line.pop();
            Ok(())
        }
        Err(_) => Err(AskFault::Gone),
    }
}

// Tells the lines of an answer as they come, to the one that completes it.
fn tell_answer<O: Write, A: Read>(
    asked: &[u8],
    output: &mut O,
    answers: &mut A,
    came: &mut Ahead,
    line: &mut Vec<u8>,
) -> Result<(), AskFault>
    ensures told { OnOk result (TellsAnswer asked.now (unread came.old (A.remaining answers.old)) (unread came.new (A.remaining answers.new))
        (O.contents output.old) (O.contents output.new)) }
    ensures late { IfErr result IsLate }
{
    let mut is_first = true;
    for _ in 0..u64::MAX {
        if tell_line(asked, is_first, output, answers, came, line)? {
            return Ok(());
        }
        is_first = false;
    }
    Err(AskFault::Gone)
}

// Tells a line of an answer. Whether the answer is complete with it.
fn tell_line<O: Write, A: Read>(
    asked: &[u8],
    is_first: bool,
    output: &mut O,
    answers: &mut A,
    came: &mut Ahead,
    line: &mut Vec<u8>,
) -> Result<bool, AskFault>
    ensures told { IfOk result (λ is_last. TellsLine asked.now is_first is_last (unread came.old (A.remaining answers.old))
        (unread came.new (A.remaining answers.new)) (O.contents output.old) (O.contents output.new)) }
    ensures late { IfErr result IsLate }
{
    take_answer(answers, came, line)?;
    let is_last = is_complete(asked, is_first, line);
    line.push(b'\n')?;
    show(output, line)?;
    Ok(is_last)
}

// Takes a line of what the server answers, which an LF has to end.
fn take_answer<A: Read>(
    answers: &mut A,
    came: &mut Ahead,
    line: &mut Vec<u8>,
) -> Result<(), AskFault>
    ensures taken { OnOk result (Consumes (unread came.old (A.remaining answers.old)) (unread came.new (A.remaining answers.new)) (with_end line.new.items)) }
    ensures late { IfErr result IsLate }
{
    match came.next_line(answers, line) {
        Ok(true) => Ok(()),
        Ok(false) => Err(AskFault::Gone),
        Err(ReplayFault::NoMemory) => Err(AskFault::NoMemory),
        Err(_) => Err(AskFault::Gone),
    }
}

// Writes a text to the output where that is wanted.
fn show_where<O: Write>(wanted: bool, output: &mut O, text: &[u8]) -> Result<(), AskFault>
    ensures shown { OnOk result (Appends (O.contents output.old) (O.contents output.new) (if wanted then text.now else [])) }
    ensures late { IfErr result IsLate }
{
    if wanted { show(output, text) } else { Ok(()) }
}

// Writes a text to the output.
fn show<O: Write>(output: &mut O, text: &[u8]) -> Result<(), AskFault>
    ensures shown { OnOk result (Appends (O.contents output.old) (O.contents output.new) text.now) }
    ensures late { IfErr result IsLate }
{
    match write_text(output, text) {
        Ok(()) => Ok(()),
        Err(_) => Err(AskFault::Output),
    }
}
