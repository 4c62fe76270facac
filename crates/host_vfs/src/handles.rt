//! Which files are open, by number, and who locks them.

ghost use Rattle.std.specs.Prelude.{◌≡◌, ℕ, ◌≤◌, ◌<◌, ◌↔◌, length, true, None, Some, IsSome, IfOk, OnErr};
ghost use Rattle.vfs_model.specs.Lock.{MayAsk, Lowers};
ghost use Rattle.vfs_trait.specs.Calls.{IsReserved};
ghost use Rattle.lock_table.specs.Take.{Takes};
ghost use Rattle.host_vfs.specs.Open.{open_name, open_levels, TakesHandle, DropsHandle, LocksHandle};

use lock_table::{Busy, LockTable};
use std::alloc::AllocError;
use vfs_model::{Fid, Level, Name, Owner};

/// An open file: its name, where the system has it, and the locks on it, which end with it.
#[derive(Drop)]
pub struct Handle {
    pub name: Name,
    pub path: String,
    pub locks: LockTable,
}

/// The name of an open file.
pub fn name_at(handles: &[Option<Handle>], fid: Fid) -> Name
    requires { IsSome (open_name handles.now fid.0) }
    ensures { open_name handles.now fid.0 ≡ Some result }
{
    handles[fid.0 as usize].as_ref().unwrap().name
}

/// The path of an open file.
pub fn path_at(handles: &[Option<Handle>], fid: Fid) -> &str
    requires { IsSome (open_name handles.now fid.0) }
{
    handles[fid.0 as usize].as_ref().unwrap().path.as_str()
}

/// Makes room for one more open file.
pub fn make_room(handles: &mut Vec<Option<Handle>>) -> Result<(), AllocError>
    ensures { handles.new.items ≡ handles.old.items }
{
    handles.reserve(1)
}

/// Gives the least number that is not in use to a name.
pub fn take(handles: &mut Vec<Option<Handle>>, name: &Name, path: String) -> Result<Fid, AllocError>
    ensures ok { IfOk result (λ fid. TakesHandle handles.old.items handles.new.items name.now fid.0) }
    ensures err { OnErr result (handles.new.items ≡ handles.old.items) }
{
    let place = first_free(handles);
    let Ok(fid) = u32::try_from(place) else {
        return Err(AllocError);
    };
    let handle = Handle {
        name: *name,
        path,
        locks: LockTable::new(),
    };
    if place < handles.len() {
        handles[place] = Some(handle);
    } else {
        handles.push(Some(handle))?;
    }
    Ok(Fid(fid))
}

/// The least number that is not in use.
fn first_free(handles: &[Option<Handle>]) -> usize
    ensures within { result ≤ length handles.now }
    ensures unused { open_name handles.now result ≡ None }
    ensures least { (other : ℕ) → other < result → IsSome (open_name handles.now other) }
{
    for (fid, handle) in handles.iter().enumerate() {
        if handle.is_none() {
            return fid;
        }
    }
    handles.len()
}

/// Ends the use of a number, and all locks by it.
pub fn release(handles: &mut [Option<Handle>], fid: Fid)
    requires { IsSome (open_name handles.old fid.0) }
    ensures { DropsHandle handles.old handles.new fid.0 }
{
    handles[fid.0 as usize] = None;
}

/// Gives an owner a level on an open file, or says who is in the way.
pub fn lock(
    handles: &mut [Option<Handle>],
    fid: Fid,
    owner: Owner,
    level: Level,
) -> Result<(), Busy>
    requires is_open { IsSome (open_name handles.old fid.0) }
    requires asks { MayAsk (open_levels handles.old fid.0) owner level }
    ensures takes { Takes (open_levels handles.old fid.0) (open_levels handles.new fid.0) owner level result }
    ensures others { LocksHandle handles.old handles.new fid.0 }
{
    let handle = handles[fid.0 as usize].as_mut().unwrap();
    handle.locks.take(owner, level)
}

/// Lowers the level of an owner on an open file.
pub fn unlock(handles: &mut [Option<Handle>], fid: Fid, owner: Owner, level: Level)
    requires is_open { IsSome (open_name handles.old fid.0) }
    ensures lowers { Lowers (open_levels handles.old fid.0) (open_levels handles.new fid.0) owner level }
    ensures others { LocksHandle handles.old handles.new fid.0 }
{
    let handle = handles[fid.0 as usize].as_mut().unwrap();
    handle.locks.drop_to(owner, level);
}

/// Whether some owner holds Reserved or more on an open file.
pub fn reserved(handles: &[Option<Handle>], fid: Fid) -> bool
    requires { IsSome (open_name handles.now fid.0) }
    ensures { (result ≡ true) ↔ IsReserved (open_levels handles.now fid.0) }
{
    is_reserved(&handles[fid.0 as usize].as_ref().unwrap().locks)
}

/// Whether some owner holds Reserved or more.
fn is_reserved(locks: &LockTable) -> bool
    ensures { (result ≡ true) ↔ IsReserved locks.now }
{
    for number in 1..=8 {
        let owner = Owner::new(number).unwrap();
        if locks.level_of(owner) >= Level::Reserved {
            return true;
        }
    }
    false
}
