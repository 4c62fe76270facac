//! What no clause says: what the calls do to a folder, and that each refusal of the system comes out as one. The system is
//! one in memory with one folder and one file, which refuses the call that it is told to, and moves one byte at a time.

ghost use Rattle.std.specs.Prelude.{OnOk};
ghost use Rattle.vfs_trait.specs.State.{IsOpen, NoneOpen};
ghost use Rattle.host_vfs.specs.Untold.{untold};

use crate::HostVfs;
use std::alloc::{AllocError, Allocator, Global};
use std::cell::Cell;
use std::fs::{Metadata, OpenFile, OpenOptions};
use std::io;
use std::io::{Empty, ErrorKind, Read, Seek, SeekFrom, Write};
use std::process::Abort;
use std::rc::Rc;
use std::rt::Files;
use std::test::Fail;
use vfs_model::{Fid, Name};
use vfs_trait::{Vfs, VfsFault};

/// The most bytes that the file has.
const ROOM: usize = 8;

const FOLDER: &str = "folder";

const FILE: &str = "folder/main";

/// What the folder holds, and which call is refused.
#[derive(Clone, Copy)]
struct State {
    /// Whether the folder is there.
    folder: bool,
    /// Whether the file is there.
    there: bool,
    bytes: [u8; ROOM],
    len: usize,
    /// How many calls there were, of the system and of its files.
    calls: u64,
    /// The number of the call that is refused, from 1, and why.
    refused: (u64, ErrorKind),
    /// How many calls had the file or the folder put on the disk.
    syncs: u64,
}

impl State {
    /// An empty folder, where one call is refused.
    fn empty(refused: (u64, ErrorKind)) -> State {
        State {
            folder: true,
            there: false,
            bytes: [0; ROOM],
            len: 0,
            calls: 0,
            refused,
            syncs: 0,
        }
    }
}

/// A system with this state.
#[derive(Clone, Drop)]
struct System {
    state: Rc<Cell<State>>,
}

impl System {
    fn new(alloc: Global, state: State) -> Result<System, AllocError> {
        Ok(System {
            state: Rc::new(alloc, Cell::new(state))?,
        })
    }

    /// Counts a call, and gives the state to it unless it is refused.
    fn call(&self) -> io::Result<State> {
        let mut state = self.state.get();
        state.calls = state.calls.saturating_add(1);
        self.state.set(state);
        let (number, kind) = state.refused;
        if state.calls == number {
            Err(io::Error::from(kind))
        } else {
            Ok(state)
        }
    }
}

fn unsupported<T>() -> io::Result<T> {
    Err(io::Error::from(ErrorKind::Unsupported))
}

fn missing<T>() -> io::Result<T> {
    Err(io::Error::from(ErrorKind::NotFound))
}

/// What is open: the file at a place, or the folder.
#[derive(Drop)]
struct Opened {
    system: System,
    is_file: bool,
    reads: bool,
    writes: bool,
    at: usize,
}

impl Opened {
    /// Counts a call on the file that needs leave to read or to write.
    fn call(&self, leave: bool) -> io::Result<State> {
        let state = self.system.call()?;
        if self.is_file && leave {
            Ok(state)
        } else {
            Err(io::Error::from(ErrorKind::PermissionDenied))
        }
    }
}

impl Files for System {
    type File = Opened;

    type Dir = Empty;

    fn open_file(&self, how: &OpenOptions, path: &str) -> io::Result<Opened> {
        how.check()?;
        let mut state = self.call()?;
        if path == FILE && state.folder && how.asks_create() && !state.there {
            state.there = true;
            state.len = 0;
            self.state.set(state);
        }
        let is_file = path == FILE && state.there;
        if !state.folder || !is_file && path != FOLDER {
            return missing();
        }
        let Ok(system) = self.clone() else {
            return Err(io::Error::from(ErrorKind::OutOfMemory));
        };
        Ok(Opened {
            system,
            is_file,
            reads: how.asks_read(),
            writes: how.asks_write(),
            at: 0,
        })
    }

    fn open_dir(&self, _path: &str) -> io::Result<Empty> {
        unsupported()
    }

    fn metadata(&self, path: &str) -> io::Result<Metadata> {
        let state = self.call()?;
        if path == FOLDER && state.folder {
            Ok(Metadata::of_dir())
        } else if path == FILE && state.folder && state.there {
            Ok(Metadata::of_file(state.len as u64))
        } else {
            missing()
        }
    }

    fn symlink_metadata(&self, path: &str) -> io::Result<Metadata> {
        self.metadata(path)
    }

    fn copy(&self, _from: &str, _to: &str) -> io::Result<u64> {
        unsupported()
    }

    fn rename(&self, _from: &str, _to: &str) -> io::Result<()> {
        unsupported()
    }

    fn remove_file(&self, path: &str) -> io::Result<()> {
        let mut state = self.call()?;
        if path != FILE || !state.folder || !state.there {
            return missing();
        }
        state.there = false;
        self.state.set(state);
        Ok(())
    }

    fn create_dir(&self, _path: &str) -> io::Result<()> {
        unsupported()
    }

    fn remove_dir(&self, _path: &str) -> io::Result<()> {
        unsupported()
    }

    fn remove_dir_all<B: Allocator>(&self, _alloc: B, _path: &str) -> io::Result<()> {
        unsupported()
    }
}

impl Read for Opened {
    fn read(&mut self, buf: &mut [u8]) -> io::Result<usize> {
        let state = self.call(self.reads)?;
        let at = self.at;
        if buf.is_empty() || at >= state.len || at >= ROOM {
            return Ok(0);
        }
        buf[0] = state.bytes[at];
        self.at = at + 1;
        Ok(1)
    }
}

impl Write for Opened {
    fn write(&mut self, bytes: &[u8]) -> io::Result<usize> {
        let mut state = self.call(self.writes)?;
        let at = self.at;
        if bytes.is_empty() || at >= ROOM {
            return Ok(0);
        }
        state.bytes[at] = bytes[0];
        state.len = state.len.max(at + 1);
        self.system.state.set(state);
        self.at = at + 1;
        Ok(1)
    }

    fn flush(&mut self) -> io::Result<()> {
        self.call(self.writes)?;
        Ok(())
    }
}

impl Seek for Opened {
    fn seek(&mut self, to: SeekFrom) -> io::Result<u64> {
        self.call(true)?;
        let SeekFrom::Start(at) = to else {
            return unsupported();
        };
        self.at = at as usize;
        Ok(at)
    }
}

impl OpenFile for Opened {
    fn metadata(&self) -> io::Result<Metadata> {
        let state = self.call(true)?;
        Ok(Metadata::of_file(state.len as u64))
    }

    fn set_len(&self, size: u64) -> io::Result<()> {
        let mut state = self.call(self.writes)?;
        state.len = size as usize;
        self.system.state.set(state);
        Ok(())
    }

    fn sync_all(&self) -> io::Result<()> {
        let mut state = self.system.call()?;
        state.syncs = state.syncs.saturating_add(1);
        self.system.state.set(state);
        Ok(())
    }

    fn sync_data(&self) -> io::Result<()> {
        unsupported()
    }
}

/// What a call was answered, as a number; `None` where it was refused because the system refused one.
fn number(answer: Result<u64, VfsFault>) -> Option<u64> {
    match answer {
        Ok(number) => Some(number),
        Err(VfsFault::Failed) => None,
        Err(_) => Some(u64::MAX),
    }
}

fn flag(answer: Result<bool, VfsFault>) -> Option<u64> {
    number(answer.map(|flag| u64::from(flag)))
}

fn done(answer: Result<(), VfsFault>) -> Option<u64> {
    number(answer.map(|()| 0))
}

/// The calls on the open file, each with what it was answered.
fn calls_on(
    host: &mut HostVfs<System>,
    file: Fid,
    seen: &mut Vec<Option<u64>>,
) -> Result<(), AllocError>
    requires { IsOpen (untold host.old.handles.items host.old.faults) file.0 }
    ensures { OnOk result (IsOpen (untold host.new.handles.items host.new.faults) file.0) }
{
    seen.push(done(host.write(file, 0, b"abcdef")))?;
    seen.push(done(host.sync(file)))?;
    seen.push(done(host.write(file, 4, b"XYZ")))?;
    let mut buf = [7; ROOM];
    seen.push(number(host.read(file, 2, &mut buf).map(|count| count as u64)))?;
    seen.push(Some(u64::from_be_bytes(buf)))?;
    seen.push(done(host.cut(file, 3)))?;
    seen.push(done(host.cut(file, 3)))?;
    seen.push(number(host.length(file)))?;
    Ok(())
}

/// The calls of a session with the file, each with what it was answered.
fn use_file(
    host: &mut HostVfs<System>,
    name: &Name,
    seen: &mut Vec<Option<u64>>,
) -> Result<(), AllocError>
    requires { NoneOpen (untold host.old.handles.items host.old.faults) }
{
    seen.push(flag(host.exists(name)))?;
    let Ok(file) = host.open(name, name.kind()) else {
        seen.push(None)?;
        return Ok(());
    };
    seen.push(Some(u64::from(file.0)))?;
    calls_on(host, file, seen)?;
    host.close(file);
    seen.push(flag(host.exists(name)))?;
    Ok(())
}

/// Those of a session that ends it, likewise.
fn end_file(
    host: &mut HostVfs<System>,
    name: &Name,
    seen: &mut Vec<Option<u64>>,
) -> Result<(), AllocError>
    requires { NoneOpen (untold host.old.handles.items host.old.faults) }
{
    seen.push(done(host.sync_names()))?;
    seen.push(done(host.delete(name, name.kind())))?;
    seen.push(done(host.delete(name, name.kind())))?;
    seen.push(flag(host.exists(name)))?;
    Ok(())
}

/// What two sessions are answered where nothing is refused: not there, number 0, written, synced, written, five bytes read,
/// `cdXYZ` and zeros, cut, cut to the length that it has, three bytes long, there, names synced, deleted, deleted where
/// it is missing, not there.
const ANSWERS: [u64; 15] = [
    0,
    0,
    0,
    0,
    0,
    5,
    0x6364_5859_5a00_0000,
    0,
    0,
    3,
    1,
    0,
    0,
    0,
    0,
];

fn main_name() -> Result<Name, Fail> {
    Ok(Name::new(b"main").ok_or("a name")?)
}

/// Runs two sessions on one folder where one call is refused: how many calls of the stack were refused for it, and how
/// many calls of the system there were.
fn run(rt: &impl Abort, alloc: Global, refused: (u64, ErrorKind)) -> Result<(u64, u64), Fail> {
    let system = System::new(alloc, State::empty(refused))?;
    let name = main_name()?;
    let mut seen = Vec::new(alloc);
    let mut first = HostVfs::new(alloc, system.clone()?, FOLDER)?;
    use_file(&mut first, &name, &mut seen)?;
    let mut second = HostVfs::new(alloc, system.clone()?, FOLDER)?;
    end_file(&mut second, &name, &mut seen)?;
    let mut faults = 0u64;
    for (place, answer) in seen.iter().enumerate() {
        match answer {
            None => faults = faults.saturating_add(1),
            Some(answer) if faults == 0 => {
                assert_eq!(rt; Some(answer), ANSWERS.get(place), "at {place}")
            }
            Some(answer) => assert!(rt; *answer < u64::MAX, "at {place}"),
        }
    }
    assert!(rt; faults > 0 || seen.len() == ANSWERS.len());
    assert_eq!(rt; first.faults.saturating_add(second.faults), faults);
    let state = system.state.get();
    assert!(rt; faults > 0 || state.syncs == 2);
    Ok((faults, state.calls))
}

#[test]
fn a_refused_call_is_a_fault(rt: HostRuntime) -> Result<(), Fail> {
    let (faults, calls) = run(&rt, rt.alloc(), (0, ErrorKind::Other))?;
    assert_eq!(rt; faults, 0);
    let mut tried_again = 0u64;
    for call in 1..=calls {
        let (faults, _) = run(&rt, rt.alloc(), (call, ErrorKind::PermissionDenied))?;
        assert_eq!(rt; faults, 1, "call {call}");
        let (faults, _) = run(&rt, rt.alloc(), (call, ErrorKind::Interrupted))?;
        if faults == 0 {
            tried_again = tried_again.saturating_add(1);
        }
    }
    // Nine bytes are written, five are read, and then the end.
    assert_eq!(rt; tried_again, 15);
    Ok(())
}

/// Asks for a name all that can be asked without opening it; whether all was refused.
fn all_refused(host: &mut HostVfs<System>, name: &Name) -> bool
    requires { NoneOpen (untold host.old.handles.items host.old.faults) }
{
    let exists = host.exists(name).is_err();
    let delete = host.delete(name, name.kind()).is_err();
    let open = host.open(name, name.kind()).is_err();
    exists && delete && open
}

#[test]
fn names_stay_in_the_folder(rt: HostRuntime) -> Result<(), Fail> {
    let state = State::empty((0, ErrorKind::Other));
    for bytes in [b".".as_slice(), b".."] {
        let system = System::new(rt.alloc(), state)?;
        let mut host = HostVfs::new(rt.alloc(), system.clone()?, FOLDER)?;
        let name = Name::new(bytes).ok_or("a name")?;
        assert!(rt; all_refused(&mut host, &name));
        assert_eq!(rt; host.faults, 3);
        assert_eq!(rt; system.state.get().calls, 0);
    }
    Ok(())
}

#[test]
fn a_missing_folder_is_a_fault(rt: HostRuntime) -> Result<(), Fail> {
    let mut state = State::empty((0, ErrorKind::Other));
    state.folder = false;
    let system = System::new(rt.alloc(), state)?;
    let mut host = HostVfs::new(rt.alloc(), system, FOLDER)?;
    assert!(rt; host.sync_names().is_err());
    host.faults = u64::MAX - 1;
    assert!(rt; all_refused(&mut host, &main_name()?));
    assert_eq!(rt; host.faults, u64::MAX);
    Ok(())
}
