//! Parts of vectors.

ghost use Rattle.std.specs.Prelude.{◌≡◌, ◌+◌, ◌-◌, ◌++◌, ◌≤◌, OnOk, OnErr, length, take, replicate, vec_len, true};
ghost use Rattle.vfs_trait.specs.Calls.{FillsUp, Reads, AllZero};
ghost use Rattle.mem_vfs.specs.Splice.{spliced};

use std::alloc::AllocError;

/// Puts bytes in place of those from an offset on.
pub fn overwrite(space: &mut Vec<u8>, off: usize, bytes: &[u8])
    requires { off + length bytes.now ≤ vec_len space.old }
    ensures bytes { space.new.items ≡ spliced space.old.items off bytes.now }
    ensures len { vec_len space.new ≡ vec_len space.old }
{
    space[off..off + bytes.len()].copy_from_slice(bytes);
}

/// Marks so many places from an offset on.
pub fn mark(marks: &mut Vec<bool>, off: usize, len: usize)
    requires { off + len ≤ vec_len marks.old }
    ensures marks { marks.new.items ≡ spliced marks.old.items off (replicate len true) }
    ensures len { vec_len marks.new ≡ vec_len marks.old }
{
    marks[off..off + len].fill(true);
}

/// Makes a vector longer, with zeros.
pub fn stretch(space: &mut Vec<u8>, len: usize) -> Result<(), AllocError>
    requires { vec_len space.old ≤ len }
    ensures ok { OnOk result (space.new.items ≡ space.old.items ++ replicate (len - vec_len space.old) 0) }
    ensures err { OnErr result (space.new.items ≡ space.old.items) }
{
    space.resize(len, 0)
}

/// Copies what a file has from an offset on, with zeros behind it, and answers how many bytes it has there.
pub fn copy_out(bytes: &[u8], off: usize, buf: &mut [u8]) -> usize
    ensures fills { FillsUp buf.new result }
    ensures reads { Reads bytes.now off buf.new result }
    ensures len { length buf.new ≡ length buf.old }
{
    let from = off.min(bytes.len());
    let count = buf.len().min(bytes.len() - from);
    buf[..count].copy_from_slice(&bytes[from..from + count]);
    zero_behind(buf, count);
    count
}

/// Fills a buffer with zeros.
pub fn zero_all(buf: &mut [u8])
    ensures zeros { AllZero buf.new }
    ensures len { length buf.new ≡ length buf.old }
{
    zero_behind(buf, 0);
}

/// Puts zeros behind the first bytes.
fn zero_behind(buf: &mut [u8], count: usize)
    requires { count ≤ length buf.old }
    ensures { buf.new ≡ take count buf.old ++ replicate (length buf.old - count) 0 }
{
    buf[count..].fill(0);
}
