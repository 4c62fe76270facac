//! A whole run of the shell, from its words to its status.

ghost use Rattle.std.specs.Prelude.{◌≡◌, ℕ, ◌+◌, ◌*◌, ◌≤◌, List, [], length, take, map, string_bytes, IfOk, OnErr, IsTrue};
ghost use Rattle.byte_base.specs.Count.{Rose};
ghost use Rattle.vfs_trait.specs.State.{NoneOpen};
ghost use Rattle.shell_lang.specs.Ends.{SourceSteady, Gives};
ghost use Rattle.shell_top.specs.Ran.{Ran, Went};
ghost use Rattle.shell_top.specs.Stands.{machine, Stands, Keeps, rows_len};
ghost use Rattle.shell_top.specs.Words.{AreWords, AreRefused, layers_of};

use crate::reply::Reply;
use crate::run::{run_bytes, run_last, write_all};
use crate::session::Session;
use crate::status::Status;
use crate::words::read_words;
use shell_lang::{ReadFailed, Sink, Source};
use std::alloc::Global;
use vfs_model::looser_twice;
use vfs_trait::Vfs;

/// The most bytes that a run takes from the source: 1 GiB.
const MAX_INPUT: usize = 1073741824;

/// The most bytes that are read at once.
const PIECE: usize = 4096;

/// Runs the shell by its words over a stack: opens the row file, answers each line before the next is read,
/// and closes the file. Words that are refused touch nothing.
pub fn vfsh_run<V: Vfs, I: Source, O: Sink>(
    alloc: Global,
    words: &[String],
    stack: &mut V,
    input: &mut I,
    output: &mut O,
) -> Status
    requires layers { (V.state stack.old).layers ≡ layers_of (map string_bytes words.now) }
    requires closed { NoneOpen (V.state stack.old) }
    ensures refused { AreRefused (map string_bytes words.now) → result ≡ Status.Words }
    ensures words { result ≡ Status.Words → AreRefused (map string_bytes words.now) }
    ensures untouched { result ≡ Status.Words → (V.state stack.new ≡ V.state stack.old) × (I.state input.new ≡ I.state input.old) × (O.state output.new ≡ O.state output.old) }
    ensures ran { (name : List ℕ) → AreWords (map string_bytes words.now) name → Ran name (V.state stack.old) (V.state stack.new) (I.state input.old) (I.state input.new) (O.state output.old) (O.state output.new) result }
    ensures closed { NoneOpen (V.state stack.new) }
{
    let Some(name) = read_words(words) else {
        return Status::Words;
    };
    looser_twice();
    let (mut session, opening) = Session::start(alloc, stack, &name);
    let status = answer_all(alloc, &mut session, stack, input, output, opening);
    session.close(stack);
    stack.view_holds();
    status
}

/// Writes the reply to the opening, and answers each line of the input.
fn answer_all<V: Vfs, I: Source, O: Sink>(
    alloc: Global,
    session: &mut Session,
    stack: &mut V,
    input: &mut I,
    output: &mut O,
    opening: Reply,
) -> Status
    requires stands { Stands session.old (V.state stack.old) }
    requires empty { rows_len session.old ≡ 0 }
    ensures stands { Stands session.new (V.state stack.new) }
    ensures keeps { Keeps session.old session.new (V.state stack.old) (V.state stack.new) }
    ensures went { Went result (I.state input.old) (I.state input.new) opening (machine session.old (V.state stack.old)) (machine session.new (V.state stack.new)) (O.state output.old) (O.state output.new) }
{
    if let Err(halt) = write_all(output, opening.text()) {
        return halt.status();
    }
    looser_twice();
    let mut line = Vec::new(alloc);
    let mut buf = [0; PIECE];
    let mut taken = 0;
    while taken < MAX_INPUT {
        let room = PIECE.min(MAX_INPUT - taken);
        let Ok(count) = input.read(&mut buf[..room]) else {
            return Status::ReadFault;
        };
        if count == 0 {
            if let Err(halt) = run_last(alloc, session, stack, output, &line) {
                return halt.status();
            }
            return session.status();
        }
        taken += count;
        if let Err(halt) = run_bytes(alloc, session, stack, output, &mut line, &buf[..count]) {
            return halt.status();
        }
    }
    Status::TooMuch
}
