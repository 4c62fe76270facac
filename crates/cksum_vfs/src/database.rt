//! A database in pages that keep checksums: reads and writes, as steps over the stack below.

ghost use Rattle.std.specs.Prelude.{◌≡◌, ◌+◌, ◌-◌, ◌%◌, ◌≤◌, ◌<◌, ◌^◌, Some, None, length, min, take, drop, IsTrue};
ghost use Rattle.vfs_model.specs.Name.{kind_of};
ghost use Rattle.vfs_model.specs.declared.name.Kind.TheVariants.{Main};
ghost use Rattle.vfs_trait.specs.State.{name_at, file_at, IsOpen};
ghost use Rattle.vfs_trait.specs.Calls.{checked, MayWrite, AllZero};
ghost use Rattle.cksum_vfs.specs.Summed.{over, own_size, IsSized, IsUnchecked};
ghost use Rattle.cksum_vfs.specs.Page.{hidden, IsSealedBy};
ghost use Rattle.cksum_vfs.specs.Steps.{IsUnchanged, IsRead, IsAnswered, IsWritten};

use crate::sums::{KEPT_SIZE, bad_page, is_bad};
use vfs_model::Fid;
use vfs_trait::{Vfs, VfsFault, kept_twice};

/// The stack below, and the page size of a layer that is on.
#[derive(Drop)]
pub struct Below<V: Vfs> {
    pub inner: V,
    pub size: Option<u32>,
    ghost sized: { IsSized size },
    ghost unchecked: { IsUnchecked size (V.state inner).layers },
}

/// Writes bytes, as they are or with the sums of their page.
pub fn write_sealed<V: Vfs>(
    below: &mut Below<V>,
    fid: Fid,
    off: u64,
    bytes: &[u8],
    sealed: &[u8],
) -> Result<(), VfsFault>
    requires is_open { IsOpen (V.state below.old.inner) fid.0 }
    requires within { off + length bytes.now ≤ 2 ^ 32 }
    requires reach { IsTrue (V.state below.old.inner).tells → off ≤ length (file_at (over below.old.size (V.state below.old.inner)) fid.0).now.bytes }
    requires pages { MayWrite (kind_of (name_at (V.state below.old.inner) fid.0)) (checked (over below.old.size (V.state below.old.inner)).layers) off bytes.now }
    requires sealed { IsSealedBy (own_size below.old.size (kind_of (name_at (V.state below.old.inner) fid.0))) bytes.now sealed.now }
    ensures size { below.new.size ≡ below.old.size }
    ensures written { IsWritten (over below.old.size (V.state below.old.inner)) (over below.old.size (V.state below.new.inner)) fid off bytes.now result }
{
    below.inner.view_holds();
    below.inner.write(fid, off, sealed)
}

/// Reads a whole page of the file below, and answers how many bytes of it lie in the file.
#[tactic(auto, using(crate::proofs::Lifts::grows))]
fn fetch<V: Vfs>(
    below: &mut Below<V>,
    page: &mut [u8],
    fid: Fid,
    start: u64,
) -> Result<usize, VfsFault>
    requires is_open { IsOpen (V.state below.old.inner) fid.0 }
    requires within { start + length page.old ≤ 2 ^ 32 }
    ensures size { below.new.size ≡ below.old.size }
    ensures unchanged { IsUnchanged (V.state below.old.inner) (V.state below.new.inner) }
    ensures read { IsRead (V.state below.old.inner) (V.state below.new.inner) (name_at (V.state below.old.inner) fid.0) start page.new result }
{
    below.inner.view_holds();
    below.inner.read(fid, start, page)
}

/// Gives a part of a page with zeros in place of its sums, and answers how many bytes of it lie in the file.
fn give(page: &mut [u8], count: usize, from: usize, buf: &mut [u8]) -> usize
    requires long { 8 ≤ length page.old }
    requires one { from + length buf.old ≤ length page.old }
    ensures given { buf.new ≡ take (length buf.old) (drop from (hidden page.old)) }
    ensures count { result ≡ min (length buf.old) (count - from) }
{
    let split = page.len() - KEPT_SIZE;
    page[split..].fill(0);
    buf.copy_from_slice(&page[from..from + buf.len()]);
    buf.len().min(count.saturating_sub(from))
}

/// Reads a part of one page: the page is read whole and looked at.
fn read_part<V: Vfs>(
    below: &mut Below<V>,
    page: &mut [u8],
    fid: Fid,
    off: u64,
    buf: &mut [u8],
) -> Result<usize, VfsFault>
    requires is_open { IsOpen (V.state below.old.inner) fid.0 }
    requires size { below.old.size ≡ Some (length page.old) }
    requires main { kind_of (name_at (V.state below.old.inner) fid.0) ≡ Main }
    requires within { off < 2 ^ 32 }
    requires one { off % length page.old + length buf.old ≤ length page.old }
    requires some { 1 ≤ length buf.old }
    ensures size { below.new.size ≡ below.old.size }
    ensures unchanged { IsUnchanged (V.state below.old.inner) (V.state below.new.inner) }
    ensures read { IsRead (over below.old.size (V.state below.old.inner)) (over below.old.size (V.state below.new.inner)) (name_at (V.state below.old.inner) fid.0) off buf.new result }
{
    let from = (off % page.len() as u64) as usize;
    let number = (off / page.len() as u64) as u32;
    match fetch(below, page, fid, off - from as u64) {
        Err(fault) => Err(fault),
        Ok(count) if is_bad(page, count) => Err(bad_page(page, number)),
        Ok(count) => Ok(give(page, count, from, buf)),
    }
}

/// Puts zeros into a buffer.
fn clear(buf: &mut [u8])
    ensures { AllZero buf.new }
{
    buf.fill(0);
}

/// How many of so many bytes from an offset on lie on its page.
fn part_len(page: usize, off: u64, left: usize) -> usize
    requires page { 1 ≤ page }
    requires left { 1 ≤ left }
    ensures some { 1 ≤ result }
    ensures within { result ≤ left }
    ensures one { off % page + result ≤ page }
{
    let from = (off % page as u64) as usize;
    left.min(page - from)
}

/// Reads part after part, up to the first that the end of the file or a refusal cuts off.
fn read_parts<V: Vfs>(
    below: &mut Below<V>,
    page: &mut [u8],
    fid: Fid,
    off: u64,
    buf: &mut [u8],
) -> Result<usize, VfsFault>
    requires is_open { IsOpen (V.state below.old.inner) fid.0 }
    requires size { below.old.size ≡ Some (length page.old) }
    requires main { kind_of (name_at (V.state below.old.inner) fid.0) ≡ Main }
    requires within { off + length buf.old ≤ 2 ^ 32 }
    ensures size { below.new.size ≡ below.old.size }
    ensures unchanged { IsUnchanged (V.state below.old.inner) (V.state below.new.inner) }
    ensures read { IsRead (over below.old.size (V.state below.old.inner)) (over below.old.size (V.state below.new.inner)) (name_at (V.state below.old.inner) fid.0) off buf.new result }
{
    kept_twice();
    below.inner.view_holds();
    let mut done = 0;
    while done < buf.len() {
        let from = off + done as u64;
        let len = part_len(page.len(), from, buf.len() - done);
        match read_part(below, page, fid, from, &mut buf[done..done + len]) {
            Err(fault) => return Err(fault),
            Ok(count) if count < len => {
                clear(&mut buf[done + len..]);
                return Ok(done + count);
            }
            Ok(_) => done += len,
        }
    }
    Ok(done)
}

/// Reads a database: each page that is touched is looked at.
pub fn read_database<V: Vfs>(
    below: &mut Below<V>,
    page: &mut [u8],
    fid: Fid,
    off: u64,
    buf: &mut [u8],
) -> Result<usize, VfsFault>
    requires is_open { IsOpen (V.state below.old.inner) fid.0 }
    requires size { below.old.size ≡ Some (length page.old) }
    requires main { kind_of (name_at (V.state below.old.inner) fid.0) ≡ Main }
    requires within { off + length buf.old ≤ 2 ^ 32 }
    ensures size { below.new.size ≡ below.old.size }
    ensures answered { IsAnswered (over below.old.size (V.state below.old.inner)) (over below.old.size (V.state below.new.inner)) fid off buf.new result }
{
    match read_parts(below, page, fid, off, buf) {
        Ok(count) => Ok(count),
        Err(fault) => {
            clear(buf);
            Err(fault)
        }
    }
}

/// Reads another file, or by a layer that is off: nothing is looked at.
pub fn read_other<V: Vfs>(
    below: &mut Below<V>,
    fid: Fid,
    off: u64,
    buf: &mut [u8],
) -> Result<usize, VfsFault>
    requires is_open { IsOpen (V.state below.old.inner) fid.0 }
    requires other { own_size below.old.size (kind_of (name_at (V.state below.old.inner) fid.0)) ≡ None }
    requires within { off + length buf.old ≤ 2 ^ 32 }
    ensures size { below.new.size ≡ below.old.size }
    ensures answered { IsAnswered (over below.old.size (V.state below.old.inner)) (over below.old.size (V.state below.new.inner)) fid off buf.new result }
{
    below.inner.read(fid, off, buf)
}
