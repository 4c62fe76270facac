//! The count of what std refused.

ghost use Rattle.std.specs.Prelude.{◌≡◌, ◌≤◌, Ok, IfOk, OnErr, IsErr};
ghost use Rattle.host_vfs.specs.Counted.{Counts};

use std::io;
use vfs_trait::VfsFault;

/// What a call is answered for which std answered so. An error raises the count, which stays at the greatest one.
pub fn counted<T>(faults: &mut u64, answer: io::Result<T>) -> Result<T, VfsFault>
    ensures counts { Counts faults.old faults.new result }
    ensures grows { faults.old ≤ faults.new }
    ensures done { IfOk result (λ value. answer ≡ Ok value) }
    ensures refused { OnErr result (IsErr answer) }
{
    match answer {
        Ok(value) => Ok(value),
        Err(_) => {
            *faults = faults.saturating_add(1);
            Err(VfsFault::Failed)
        }
    }
}
