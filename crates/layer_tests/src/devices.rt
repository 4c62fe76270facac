//! What no clause says: that calls succeed, which calls fail, and that a stop leaves what the calls alone say.

ghost use Rattle.std.specs.Prelude.{◌≡◌, length, Some, IfOk};
ghost use Rattle.vfs_trait.specs.State.{NoneOpen, OpenStays};
ghost use Rattle.mem_vfs.specs.Failing.{mem_state};

use mem_vfs::{Edge, FailAt, Fill, ImageChoice, MemVfs, SureVfs};
use std::alloc::Global;
use std::process::Abort;
use std::test::Fail;
use vfs_model::{Fid, Name};
use vfs_trait::{Bytes, Vfs};

fn main_name() -> Result<Name, Fail> {
    Ok(Name::new(b"main").ok_or("a name")?)
}

#[test]
fn given_files_are_found(rt: HostRuntime) -> Result<(), Fail> {
    let name = main_name()?;
    let other = name.with(b"-journal").ok_or("a name")?;
    let bytes = Bytes::from_vec(Vec::from_slice(rt.alloc(), b"given")?);
    let mut files = Vec::new(rt.alloc());
    files.push((name, bytes))?;
    let mut device = SureVfs::with(rt.alloc(), files)?;
    assert_eq!(rt; device.bytes_of(&name), Some(b"given".as_slice()));
    assert_eq!(rt; device.bytes_of(&other), None);
    let file = device.open(&name, name.kind())?;
    let mut buf = [7; 6];
    let count = device.read(file, 1, &mut buf)?;
    assert_eq!(rt; count, 4);
    assert_eq!(rt; buf, *b"iven\0\0");
    assert!(rt; device.exists(&name)?);
    assert_eq!(rt; device.length(file)?, 5);
    Ok(())
}

/// The most bytes that the file of these tests has.
const ROOM: usize = 8;

/// A file as the calls on it alone say: what a read finds, and what a stop may change.
#[derive(Clone, Copy)]
struct Shadow {
    there: bool,
    was_there: bool,
    sure: bool,
    bytes: [u8; ROOM],
    len: usize,
    synced: [u8; ROOM],
    synced_len: usize,
    /// The places written since the last sync.
    written: [bool; ROOM],
    shortest: usize,
    longest: usize,
}

impl Shadow {
    fn absent() -> Shadow {
        Shadow {
            there: false,
            was_there: false,
            sure: true,
            bytes: [0; ROOM],
            len: 0,
            synced: [0; ROOM],
            synced_len: 0,
            written: [false; ROOM],
            shortest: 0,
            longest: 0,
        }
    }

    /// Four bytes of this value, settled.
    fn given(byte: u8) -> Shadow {
        let mut shadow = Shadow::absent();
        shadow.open();
        shadow.write(0, byte, 4);
        shadow.sync();
        shadow.sync_names();
        shadow
    }

    fn open(&mut self) {
        if !self.there {
            self.there = true;
            self.sure = false;
            self.len = 0;
            self.shortest = 0;
        }
    }

    fn write(&mut self, off: usize, byte: u8, count: usize) {
        for place in 0..ROOM {
            if off <= place && place - off < count {
                self.bytes[place] = byte;
                self.written[place] = true;
            }
        }
        let end = off.saturating_add(count);
        self.len = self.len.max(end);
        self.longest = self.longest.max(end);
    }

    fn cut(&mut self, len: usize) {
        self.len = self.len.min(len);
        self.shortest = self.shortest.min(len);
    }

    fn sync(&mut self) {
        self.synced = self.bytes;
        self.synced_len = self.len;
        self.written = [false; ROOM];
        self.shortest = self.len;
        self.longest = self.len;
    }

    fn delete(&mut self) {
        if self.there {
            self.there = false;
            self.sure = false;
            self.len = 0;
            self.shortest = 0;
        }
    }

    fn sync_names(&mut self) {
        self.sure = true;
        self.was_there = self.there;
        if !self.there {
            self.longest = 0;
            self.synced_len = 0;
        }
    }

    fn is_kept(&self, place: usize) -> bool {
        place < self.shortest && place < ROOM && !self.written[place]
    }

    /// A stop may leave this, by the definition of an image.
    fn allows(&self, found: Option<&[u8]>) -> bool {
        let Some(bytes) = found else {
            return !self.sure || !self.there;
        };
        if self.sure && !self.there {
            return false;
        }
        let len = bytes.len();
        if len < self.shortest || self.longest < len {
            return false;
        }
        self.keeps(bytes)
    }

    fn keeps(&self, bytes: &[u8]) -> bool {
        for place in 0..ROOM {
            if self.is_kept(place) && (place >= bytes.len() || bytes[place] != self.bytes[place]) {
                return false;
            }
        }
        true
    }

    /// Whether this is the image of the choice.
    fn is_chosen(&self, choice: &ImageChoice, found: Option<&[u8]>) -> bool {
        let there = match choice.names {
            Edge::Old => self.was_there,
            Edge::Present => self.there,
        };
        match found {
            None => !there,
            Some(bytes) => {
                there && bytes.len() == self.length(choice.length) && self.fits(choice.bytes, bytes)
            }
        }
    }

    fn length(&self, length: Edge) -> usize {
        if length == Edge::Present && self.there {
            self.len
        } else {
            self.synced_len
        }
    }

    fn fits(&self, fill: Fill, bytes: &[u8]) -> bool {
        for (place, byte) in bytes.iter().enumerate() {
            if place < ROOM && *byte != self.byte_at(fill, place) {
                return false;
            }
        }
        true
    }

    fn byte_at(&self, fill: Fill, place: usize) -> u8 {
        if place >= ROOM {
            return 0;
        }
        if self.is_kept(place) {
            return self.bytes[place];
        }
        match fill {
            Fill::Old if place < self.synced_len => self.synced[place],
            Fill::Present if place < self.len => self.bytes[place],
            Fill::All(byte) => byte,
            _ => 0,
        }
    }
}

/// What a device is told to fail, and what it answered.
#[derive(Clone, Copy)]
struct Told {
    fail: FailAt,
    /// How many device calls there were.
    calls: u64,
    dead: bool,
    /// Some call was answered otherwise than told.
    wrong: bool,
}

impl Told {
    /// Notes what a device call was answered; gives how many bytes a write puts that fails here.
    fn answered(&mut self, done: bool) -> u64 {
        self.calls = self.calls.saturating_add(1);
        let named = self.calls == self.fail.call;
        if done == (self.dead || named) {
            self.wrong = true;
        }
        let reach = if self.dead { 0 } else { self.fail.reach };
        self.dead = self.dead || (named && self.fail.from_then_on);
        reach
    }
}

/// Checks the twelve images.
fn check_images(
    rt: &impl Abort,
    alloc: Global,
    device: &MemVfs,
    name: &Name,
    shadow: &Shadow,
) -> Result<(), Fail> {
    for names in [Edge::Old, Edge::Present] {
        for length in [Edge::Old, Edge::Present] {
            for bytes in [Fill::Old, Fill::Present, Fill::All(255)] {
                let choice = ImageChoice {
                    length,
                    bytes,
                    names,
                };
                let image = device.image(alloc, &choice)?;
                let found = image.bytes_of(name);
                assert!(rt; shadow.allows(found), "an image: {choice:?}");
                assert!(rt; shadow.is_chosen(&choice, found), "the image: {choice:?}");
            }
        }
    }
    Ok(())
}

/// A call on the open file.
#[derive(Clone, Copy)]
enum Step {
    /// Three bytes of this value, where the file reaches.
    Write(u64, u8),
    /// To this length, where the file has it.
    Cut(u64),
    Sync,
    SyncNames,
    /// The calls that change nothing.
    Look,
}

/// A device with one file, what the calls on the file say, and what is told to fail.
#[derive(Drop)]
struct Trial {
    device: MemVfs,
    name: Name,
    shadow: Shadow,
    told: Told,
}

impl Trial {
    fn step(&mut self, file: Fid, step: Step)
        requires { (mem_state self.old.device).open_files file.0 ≡ Some self.old.name }
        ensures opens { OpenStays (mem_state self.old.device) (mem_state self.new.device) }
        ensures name { self.new.name ≡ self.old.name }
    {
        match step {
            Step::Write(off, byte) => self.write(file, off, byte),
            Step::Cut(len) => self.cut(file, len),
            Step::Sync => self.sync(file),
            Step::SyncNames => self.sync_names(),
            Step::Look => self.look(file),
        }
    }

    /// How long the file is, or 0 where it is not there.
    fn length(&self) -> u64
        ensures { result ≡ length ((mem_state self.now.device).files self.now.name).now.bytes }
    {
        match self.device.bytes_of(&self.name) {
            Some(bytes) => bytes.len() as u64,
            None => 0,
        }
    }

    fn write(&mut self, file: Fid, off: u64, byte: u8)
        requires { (mem_state self.old.device).open_files file.0 ≡ Some self.old.name }
        ensures opens { OpenStays (mem_state self.old.device) (mem_state self.new.device) }
        ensures name { self.new.name ≡ self.old.name }
    {
        if off > self.length() || off > 5 {
            return;
        }
        let done = self.device.write(file, off, &[byte; 3]).is_ok();
        let reach = self.told.answered(done);
        let count = if done { 3 } else { reach.min(3) };
        if count > 0 {
            self.shadow.write(off as usize, byte, count as usize);
        }
    }

    fn cut(&mut self, file: Fid, len: u64)
        requires { (mem_state self.old.device).open_files file.0 ≡ Some self.old.name }
        ensures opens { OpenStays (mem_state self.old.device) (mem_state self.new.device) }
        ensures name { self.new.name ≡ self.old.name }
    {
        if len > self.length() {
            return;
        }
        let done = self.device.cut(file, len).is_ok();
        self.told.answered(done);
        if done {
            self.shadow.cut(len as usize);
        }
    }

    fn sync(&mut self, file: Fid)
        requires { (mem_state self.old.device).open_files file.0 ≡ Some self.old.name }
        ensures opens { OpenStays (mem_state self.old.device) (mem_state self.new.device) }
        ensures name { self.new.name ≡ self.old.name }
    {
        let done = self.device.sync(file).is_ok();
        self.told.answered(done);
        if done {
            self.shadow.sync();
        }
    }

    fn sync_names(&mut self)
        ensures opens { OpenStays (mem_state self.old.device) (mem_state self.new.device) }
        ensures name { self.new.name ≡ self.old.name }
    {
        let done = self.device.sync_names().is_ok();
        self.told.answered(done);
        if done {
            self.shadow.sync_names();
        }
    }

    fn look(&mut self, file: Fid)
        requires { (mem_state self.old.device).open_files file.0 ≡ Some self.old.name }
        ensures opens { OpenStays (mem_state self.old.device) (mem_state self.new.device) }
        ensures name { self.new.name ≡ self.old.name }
    {
        let exists = self.device.exists(&self.name).is_ok();
        self.told.answered(exists);
        let length = self.device.length(file).is_ok();
        self.told.answered(length);
        let read = self.device.read(file, 1, &mut [7; 2]).is_ok();
        self.told.answered(read);
    }

    fn delete(&mut self)
        requires { NoneOpen (mem_state self.old.device) }
        ensures { NoneOpen (mem_state self.new.device) }
    {
        let done = self.device.delete(&self.name, self.name.kind()).is_ok();
        self.told.answered(done);
        if done {
            self.shadow.delete();
        }
    }

    /// Opens the file, makes these calls with the images checked after each, and closes it.
    fn session(&mut self, rt: &impl Abort, alloc: Global, steps: &[Step]) -> Result<(), Fail>
        requires { NoneOpen (mem_state self.old.device) }
        ensures { NoneOpen (mem_state self.new.device) }
    {
        let opened = self.device.open(&self.name, self.name.kind());
        self.told.answered(opened.is_ok());
        let Ok(file) = opened else {
            return self.check(rt, alloc);
        };
        self.shadow.open();
        let checked = self.steps(rt, alloc, file, steps);
        self.device.close(file);
        checked
    }

    fn steps(
        &mut self,
        rt: &impl Abort,
        alloc: Global,
        file: Fid,
        steps: &[Step],
    ) -> Result<(), Fail>
        requires { (mem_state self.old.device).open_files file.0 ≡ Some self.old.name }
        ensures { OpenStays (mem_state self.old.device) (mem_state self.new.device) }
    {
        for step in steps {
            self.step(file, *step);
            self.check(rt, alloc)?;
        }
        Ok(())
    }

    fn check(&self, rt: &impl Abort, alloc: Global) -> Result<(), Fail> {
        assert!(rt; !self.told.wrong, "call {}", self.told.calls);
        check_images(rt, alloc, &self.device, &self.name, &self.shadow)
    }
}

/// A device without the file, or with four bytes in it, that is told to fail.
fn device(alloc: Global, name: &Name, given: Option<u8>, fail: FailAt) -> Result<MemVfs, Fail>
    ensures { IfOk result (λ device. NoneOpen (mem_state device)) }
{
    let mut files = Vec::new(alloc);
    if let Some(byte) = given {
        files.push((*name, Bytes::from_vec(Vec::from_slice(alloc, &[byte; 4])?)))?;
    }
    let mut fails = Vec::new(alloc);
    fails.push(fail)?;
    Ok(MemVfs::with(alloc, files, fails)?)
}

/// Two times the file is opened, and deleted between and behind. How many device calls there were.
fn run(rt: &impl Abort, alloc: Global, given: Option<u8>, fail: FailAt) -> Result<u64, Fail> {
    let name = main_name()?;
    let mut trial = Trial {
        device: device(alloc, &name, given, fail)?,
        name,
        shadow: given.map_or(Shadow::absent(), |byte| Shadow::given(byte)),
        told: Told {
            fail,
            calls: 0,
            dead: false,
            wrong: false,
        },
    };
    let first = [
        Step::Write(0, 1),
        Step::Sync,
        Step::SyncNames,
        Step::Write(2, 2),
        Step::Cut(1),
        Step::Write(1, 3),
        Step::Look,
        Step::Sync,
        Step::Write(0, 4),
    ];
    trial.session(rt, alloc, &first)?;
    trial.delete();
    trial.check(rt, alloc)?;
    let second = [Step::Write(0, 5), Step::SyncNames, Step::Cut(2)];
    trial.session(rt, alloc, &second)?;
    trial.delete();
    trial.check(rt, alloc)?;
    trial.sync_names();
    trial.check(rt, alloc)?;
    Ok(trial.told.calls)
}

/// With this call failing, alone and from then on.
fn fail_at(rt: &impl Abort, alloc: Global, call: u64) -> Result<(), Fail> {
    for (reach, from_then_on) in [(0, false), (1, false), (0, true), (1, true)] {
        let fail = FailAt {
            call,
            reach,
            from_then_on,
        };
        let calls = run(rt, alloc, None, fail)?;
        assert!(rt; calls > 0 && (call < 20 || calls == 19), "{calls} calls");
        run(rt, alloc, Some(9), fail)?;
    }
    Ok(())
}

#[test]
fn a_stop_leaves_what_the_calls_say(rt: HostRuntime) -> Result<(), Fail> {
    for call in 1..=20 {
        fail_at(&rt, rt.alloc(), call)?;
    }
    Ok(())
}
