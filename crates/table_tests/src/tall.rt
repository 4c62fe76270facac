//! A database of as many pages as there may be, of which the first alone are kept.

ghost use Rattle.std.specs.Prelude.{◌≡◌, ◌≤◌, false};
ghost use Rattle.page_pool.specs.Memory.{mem_state};

use page_pool::{MemSpace, PageSpace, SpaceFault};

/// As many pages of 512 bytes as the greatest database has.
const PAGES: u32 = 2_097_152;

/// Pages of 512 bytes, as many as the greatest database has: the first are those of a space in memory, and the others read as zeros and
/// cannot be put. It tells nothing.
#[derive(Drop)]
pub struct Tall {
    pub first: MemSpace,
    ghost page_size: { (mem_state first).page_size ≡ 512 },
    ghost few: { (mem_state first).pages.size ≤ 2097152 },
}

impl PageSpace for Tall {
    ghost state = { λ s. record (mem_state s.first) { tells = false; pages = record (mem_state s.first).pages { size = 2097152 } } };

    fn page_size(&self) -> u32 {
        self.first.page_size()
    }

    fn usable(&self) -> u32 {
        self.first.usable()
    }

    fn size(&self) -> u32 {
        PAGES
    }

    fn get(&mut self, number: u32, into: &mut [u8]) -> Result<(), SpaceFault> {
        if number > self.first.size() {
            into.fill(0);
            return Ok(());
        }
        self.first.get(number, into)
    }

    fn put(&mut self, number: u32, bytes: &[u8]) -> Result<(), SpaceFault> {
        if number > self.first.size() {
            return Err(SpaceFault::Memory);
        }
        self.first.put(number, bytes)
    }

    fn grow(&mut self) -> Result<u32, SpaceFault> {
        Err(SpaceFault::Large { pages: PAGES + 1 })
    }
}
