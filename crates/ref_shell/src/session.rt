//! A whole run.

ghost use Rattle.std.specs.Prelude.{◌≡◌, ℕ, List, true, false, IfOk, OnOk, IfSome, IfNone};
ghost use Rattle.shell_lang.specs.Reply.{IsPrintable};
ghost use Rattle.shell_model.specs.State.{State};
ghost use Rattle.shell_model.specs.Run.{RunsTo, HasNoFeed, Answers, said, is_connection};
ghost use Rattle.ref_shell.specs.Machine.{state_of};
ghost use Rattle.ref_shell.specs.Session.{LineAnswer, LineRun, RunSoFar, IsFedLine};
ghost use Rattle.book_model.specs.Book.{Book};

use crate::machine::Machine;
use crate::shelf::Shelf;
use byte_base::Bytes;
use shell_lang::{Command, ErrorWord, LineFault, Reply, read_command, write_reply};
use std::alloc::{AllocError, Global};
use vfs_model::Owner;

/// A run over a database that a shelf keeps: the text of the replies to the opening and to the lines of an input.
pub fn run<S: Shelf>(alloc: Global, shelf: S, input: &[u8]) -> Result<Bytes, AllocError>
    ensures { IfOk result (λ text. (end : State) × RunsTo (S.book shelf) input.now text end) }
{
    let mut machine = Machine::closed(shelf);
    let mut text = Bytes::from_vec(Vec::new(alloc));
    let opening = machine.reopen();
    write_reply(&opening, &mut text)?;
    answer_all(alloc, &mut machine, input, &mut text)?;
    Ok(text)
}

/// Answers the lines that are left of an input.
fn answer_all<S: Shelf>(
    alloc: Global,
    machine: &mut Machine<S>,
    input: &[u8],
    text: &mut Bytes,
) -> Result<(), AllocError>
    ensures { OnOk result ((book : Book) (whole : List ℕ) → RunSoFar book whole input.now text.old (state_of S.book machine.old) → RunsTo book whole text.new (state_of S.book machine.new)) }
{
    let mut rest = input;
    while let Some((line, more)) = fed_line(rest) {
        answer(alloc, machine, line, text)?;
        rest = more;
    }
    if rest.is_empty() {
        return Ok(());
    }
    answer(alloc, machine, rest, text)
}

/// The first line that a line feed ends, and what stands behind it.
fn fed_line(input: &[u8]) -> Option<(&[u8], &[u8])>
    ensures found { IfSome result (λ found. IsFedLine input.now found.0.now found.1.now) }
    ensures none { IfNone result (HasNoFeed input.now) }
{
    let at = input.iter().position(|b| *b == b'\n')?;
    Some((&input[..at], &input[at + 1..]))
}

/// Answers a line, and puts the reply behind the text.
fn answer<S: Shelf>(
    alloc: Global,
    machine: &mut Machine<S>,
    line: &[u8],
    text: &mut Bytes,
) -> Result<(), AllocError>
    ensures { OnOk result (LineRun (state_of S.book machine.old) line.now text.old text.new (state_of S.book machine.new)) }
{
    let reply = reply_to(alloc, machine, line)?;
    write_reply(&reply, text)
}

/// The reply to a line.
fn reply_to<S: Shelf>(
    alloc: Global,
    machine: &mut Machine<S>,
    line: &[u8],
) -> Result<Reply, AllocError>
    ensures answered { IfOk result (λ reply. LineAnswer (state_of S.book machine.old) line.now reply (state_of S.book machine.new)) }
    ensures printable { IfOk result (λ reply. IsPrintable reply) }
{
    match read_command(alloc, line) {
        Ok((number, command)) => Ok(answer_command(machine, number, command)),
        Err(LineFault::BadLine) => Ok(Reply::Error {
            word: ErrorWord::BadLine,
        }),
        Err(LineFault::Memory) => Err(AllocError),
    }
}

/// Answers a command of the connection of a number.
fn answer_command<S: Shelf>(machine: &mut Machine<S>, number: u32, command: Command) -> Reply
    ensures answered { Answers (state_of S.book machine.old) (said number command) result (state_of S.book machine.new) }
    ensures printable { IsPrintable result }
{
    match owner_of(number) {
        Some(who) => machine.step(who, command),
        None => Reply::Error {
            word: ErrorWord::NoConn,
        },
    }
}

/// The connection of a number, where there is one.
fn owner_of(number: u32) -> Option<Owner>
    ensures some { IfSome result (λ who. who ≡ number) }
    ensures connection { IfSome result (λ who. is_connection number ≡ true) }
    ensures none { IfNone result (is_connection number ≡ false) }
{
    match number {
        1..=8 => Owner::new(number as u8),
        _ => None,
    }
}
