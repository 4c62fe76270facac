//! How much of a payload its cell keeps, where the rest spills onto overflow pages.
//!
//! After sqlite.org, "Database File Format", section 1.6, for the leaves of table b-trees.

ghost use Rattle.std.specs.Prelude.{◌≡◌, ◌≤◌};
ghost use Rattle.db_format.specs.Spill.{local_size};

/// How many bytes of a payload of `payload` bytes stand in its cell, on pages with `usable` bytes for
/// content. Where they are fewer than all, the others are on overflow pages. It takes no memory.
pub fn local_size(usable: u32, payload: u64) -> u32
    requires least { 480 ≤ usable }
    requires most { usable ≤ 65536 }
    ensures { result ≡ local_size usable payload }
{
    let usable = u64::from(usable);
    let most = usable - 35;
    if payload <= most {
        return payload as u32;
    }
    let least = (usable - 12) * 32 / 255 - 23;
    let even = least + (payload - least) % (usable - 4);
    if even <= most {
        even as u32
    } else {
        least as u32
    }
}
