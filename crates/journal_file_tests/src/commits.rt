//! A commit of which each device call fails in turn, and what is recovered from what a stop leaves of it.

ghost use Rattle.std.specs.Prelude.{◌≡◌, ◌≢◌, ◌≤◌, ℕ, List, [], length, IsTrue, IfOk, true};
ghost use Rattle.vfs_model.specs.Name.{kind_of};
ghost use Rattle.vfs_trait.specs.State.{NoneOpen};
ghost use Rattle.mem_vfs.specs.Failing.{mem_state};
ghost use Rattle.mem_vfs.specs.Image.{AllSettled};
ghost use Rattle.journal_file.specs.Steps.{IsHotOver};

use crate::pages::{after, before, both_pages, journal_name, main_name, plan_of};
use byte_base::Bytes;
use journal_file::{commit_named, recover};
use journal_format::{Hot, read_hot, same_laid};
use mem_vfs::{Edge, FailAt, Fill, ImageChoice, MemVfs};
use std::alloc::Global;
use std::process::Abort;
use std::test::Fail;
use vfs_model::{Kind, Name, looser_twice};
use vfs_trait::{Vfs, VfsFault};

/// The names of the database and its journal.
#[derive(Clone, Copy)]
struct Names {
    main: Name,
    journal: Name,
}

fn both_names() -> Result<Names, Fail>
    ensures main { IfOk result (λ names. kind_of names.main ≡ Kind.Main) }
    ensures journal { IfOk result (λ names. kind_of names.journal ≡ Kind.Journal) }
{
    Ok(Names {
        main: main_name()?,
        journal: journal_name()?,
    })
}

/// A device with the file before the row, that fails as it is told.
fn device(alloc: Global, main: &Name, fail: FailAt) -> Result<MemVfs, Fail>
    ensures closed { IfOk result (λ device. NoneOpen (mem_state device)) }
    ensures settled { IfOk result (λ device. AllSettled (mem_state device).files) }
{
    let mut files = Vec::new(alloc);
    files.push((*main, Bytes::from_vec(before(alloc)?)))?;
    let mut fails = Vec::new(alloc);
    fails.push(fail)?;
    Ok(MemVfs::with(alloc, files, fails)?)
}

/// Commits the row to a device without a journal; whether it was done.
fn commit(alloc: Global, device: &mut MemVfs, names: &Names) -> Result<bool, Fail>
    requires closed { NoneOpen (mem_state device.old) }
    requires settled { AllSettled (mem_state device.old).files }
    requires main { kind_of names.now.main ≡ Kind.Main }
    requires journal { kind_of names.now.journal ≡ Kind.Journal }
{
    same_laid();
    device.view_holds();
    let row = after(alloc)?;
    let Some(file) = device.bytes_of(&names.main) else {
        return Err("a file".into());
    };
    if file.len() != 1024 || row.len() != 1024 {
        return Err("two pages".into());
    }
    let plan = plan_of(alloc, file)?;
    let pages = both_pages(alloc, &row)?;
    if device.bytes_of(&names.journal).is_some() {
        return Err("a journal before its time".into());
    }
    let Ok(db) = device.open(&names.main, Kind::Main) else {
        return Ok(false);
    };
    let done = commit_named(alloc, device, db, &names.journal, &plan, pages, 0);
    Ok(done.is_ok())
}

/// Whether the journal is hot, of pages of 512 bytes, and over a database that is long enough.
fn is_hot(alloc: Global, device: &MemVfs, names: &Names) -> Result<bool, Fail>
    requires settled { AllSettled (mem_state device.now).files }
    ensures over { IfOk result (λ hot. hot ≡ true → IsHotOver 512 ((mem_state device.now).files names.now.journal) ((mem_state device.now).files names.now.main)) }
    ensures there { IfOk result (λ hot. hot ≡ true → IsTrue ((mem_state device.now).files names.now.journal).now.there) }
{
    let Some(bytes) = device.bytes_of(&names.journal) else {
        return Ok(false);
    };
    let Some(file) = device.bytes_of(&names.main) else {
        return Err("a file".into());
    };
    match read_hot(alloc, bytes) {
        Ok(Hot::Cold) => Ok(false),
        Ok(Hot::Play(play)) => {
            if play.page != 512 || file.len() < 512 * play.initial as usize {
                return Err("a journal of this file".into());
            }
            Ok(true)
        }
        Err(_) => Err("a journal of this form".into()),
    }
}

/// Plays a hot journal back.
fn play_back(alloc: Global, device: &mut MemVfs, names: &Names) -> Result<(), VfsFault>
    requires closed { NoneOpen (mem_state device.old) }
    requires settled { AllSettled (mem_state device.old).files }
    requires main { kind_of names.now.main ≡ Kind.Main }
    requires journal { kind_of names.now.journal ≡ Kind.Journal }
    requires there { IsTrue ((mem_state device.old).files names.now.journal).now.there }
    requires hot { IsHotOver 512 ((mem_state device.old).files names.now.journal) ((mem_state device.old).files names.now.main) }
{
    looser_twice();
    let db = device.open(&names.main, Kind::Main)?;
    let journal = device.open(&names.journal, Kind::Journal)?;
    recover(alloc, device, db, journal, 512, 0)
}

/// What is recovered from an image: the bytes of the database.
fn recovered(alloc: Global, image: MemVfs, names: &Names) -> Result<Vec<u8>, Fail>
    requires closed { NoneOpen (mem_state image) }
    requires settled { AllSettled (mem_state image).files }
    requires main { kind_of names.now.main ≡ Kind.Main }
    requires journal { kind_of names.now.journal ≡ Kind.Journal }
{
    let mut image = image;
    if is_hot(alloc, &image, names)? {
        play_back(alloc, &mut image, names)?;
        let bytes = image.bytes_of(&names.journal).ok_or("a journal")?;
        if bytes.first() != Some(&0) {
            return Err("a journal that is closed".into());
        }
    }
    let bytes = image.bytes_of(&names.main).ok_or("a file")?;
    Ok(Vec::from_slice(alloc, bytes)?)
}

/// What an image has: the ends of each choice.
const CHOICES: [(Edge, Fill, Edge); 8] = [
    (Edge::Old, Fill::Old, Edge::Old),
    (Edge::Old, Fill::Present, Edge::Present),
    (Edge::Present, Fill::Old, Edge::Present),
    (Edge::Present, Fill::Present, Edge::Present),
    (Edge::Old, Fill::All(0xd9), Edge::Present),
    (Edge::Present, Fill::All(0xd9), Edge::Present),
    (Edge::Present, Fill::All(7), Edge::Present),
    (Edge::Present, Fill::Present, Edge::Old),
];

/// Which of the two files were recovered: from some image the one before the row, from some the one with it.
#[derive(Clone, Copy)]
struct Seen {
    before: bool,
    after: bool,
}

/// What is recovered from the images of a device is the file before or behind the row.
fn images(rt: &impl Abort, alloc: Global, device: &MemVfs, names: &Names) -> Result<Seen, Fail>
    requires main { kind_of names.now.main ≡ Kind.Main }
    requires journal { kind_of names.now.journal ≡ Kind.Journal }
{
    let old = before(alloc)?;
    let new = after(alloc)?;
    let mut seen = Seen {
        before: false,
        after: false,
    };
    for (length, bytes, made) in CHOICES {
        let choice = ImageChoice {
            length,
            bytes,
            names: made,
        };
        let image = device.image(alloc, &choice)?;
        let found = recovered(alloc, image, names)?;
        let is_old = found.as_slice() == old.as_slice();
        let is_new = found.as_slice() == new.as_slice();
        assert!(rt; is_old || is_new);
        seen.before = seen.before || is_old;
        seen.after = seen.after || is_new;
    }
    Ok(seen)
}

/// Commits with a call failing: whether it was done, and which files were recovered.
fn fail_at(rt: &impl Abort, alloc: Global, fail: FailAt) -> Result<(bool, Seen), Fail> {
    let names = both_names()?;
    let mut device = device(alloc, &names.main, fail)?;
    let done = commit(alloc, &mut device, &names)?;
    Ok((done, images(rt, alloc, &device, &names)?))
}

/// How many device calls a commit of two pages makes, with the opening of the database.
const CALLS: u64 = 17;

#[test]
fn a_stop_leaves_the_file_before_or_after(rt: HostRuntime) -> Result<(), Fail> {
    let mut both = false;
    for call in 1..=CALLS + 1 {
        for (reach, from_then_on) in [(0, false), (600, false), (0, true), (600, true)] {
            let fail = FailAt {
                call,
                reach,
                from_then_on,
            };
            let (done, seen) = fail_at(&rt, rt.alloc(), fail)?;
            assert!(rt; done == (call > CALLS), "call {call}");
            assert!(rt; !done || !seen.before, "call {call}");
            both = both || (seen.before && seen.after);
        }
    }
    assert!(rt; both);
    Ok(())
}
