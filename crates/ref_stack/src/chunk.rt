//! Names of chunks.

ghost use Rattle.std.specs.Prelude.{◌≡◌, ◌-◌, replicate, IfOk};
ghost use Rattle.vfs_model.specs.View.{chunk_name};

use byte_base::Bytes;
use itoa::Buffer;
use std::alloc::{AllocError, Global};

/// The most chunks of a file.
pub const MOST_CHUNKS: u32 = 100_000;

/// The name of the file that holds a chunk: that of the whole file for the first, and else with the number behind it, in
/// three digits at least.
pub fn chunk_name(alloc: Global, name: &[u8], number: u32) -> Result<Bytes, AllocError>
    ensures { IfOk result (λ chunk. chunk ≡ chunk_name name.now number) }
{
    let mut chunk = Bytes::copy_of(alloc, name)?;
    if number == 0 {
        return Ok(chunk);
    }
    let mut buffer = Buffer::new();
    let digits = buffer.format(number).as_bytes();
    chunk.extend_from_slice(zeros_before(digits.len()))?;
    chunk.extend_from_slice(digits)?;
    Ok(chunk)
}

/// The zeros in front of so many digits.
fn zeros_before(digits: usize) -> &'static [u8]
    ensures { result.now ≡ replicate (3 - digits) 48 }
{
    match digits {
        0 => b"000",
        1 => b"00",
        2 => b"0",
        _ => b"",
    }
}
