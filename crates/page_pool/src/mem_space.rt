//! A page space in memory.

ghost use Rattle.std.specs.Prelude.{◌≡◌, ℕ, ◌+◌, ◌*◌, ◌≤◌, ◌<◌, length, [], slice_index_or, IfOk};
ghost use Rattle.db_format.specs.Header.{greatest_length, IsPageSize};

use crate::PageSpace;
use crate::page::Page;
use db_format::SpaceFault;
use std::alloc::{AllocError, Global};

/// The greatest length of a database, in bytes.
const GREATEST_LENGTH: u64 = 1 << 30;

/// A list of pages in memory. It tells what they hold, may always be asked and changed, no page of it fails
/// its checksum, and it never fails.
#[derive(Drop)]
pub struct MemSpace {
    alloc: Global,
    page_size: u32,
    usable: u32,
    pages: Vec<Page>,
    changed: bool,
    ghost size_of_page: { IsPageSize page_size },
    ghost least: { 480 ≤ usable },
    ghost most: { usable ≤ page_size },
    ghost spare: { page_size ≤ usable + 255 },
    ghost few: { length pages.items * page_size ≤ greatest_length },
    ghost sized: { (place : ℕ) → place < length pages.items → length (slice_index_or pages.items place []) ≡ page_size },
}

impl MemSpace {
    ghost use Rattle.page_pool.specs.Memory.{mem_state, IsNewSpace};

    /// A space without pages, of this page size, with so many bytes reserved at the end of each page. It takes
    /// no memory.
    pub fn new(alloc: Global, page_size: u32, reserved: u8) -> Result<MemSpace, AllocError>
        requires size { IsPageSize page_size }
        requires room { 480 + reserved ≤ page_size }
        ensures new { IfOk result (λ space. IsNewSpace (mem_state space) page_size reserved) }
    {
        Ok(MemSpace {
            alloc,
            page_size,
            usable: page_size - reserved as u32,
            pages: Vec::new(alloc),
            changed: false,
        })
    }
}

impl PageSpace for MemSpace {
    ghost use Rattle.page_pool.specs.Memory.{mem_state};

    ghost state = { mem_state };

    fn page_size(&self) -> u32 {
        self.page_size
    }

    fn usable(&self) -> u32 {
        self.usable
    }

    fn size(&self) -> u32 {
        self.pages.len() as u32
    }

    fn get(&mut self, number: u32, into: &mut [u8]) -> Result<(), SpaceFault> {
        let page = &self.pages[number as usize - 1];
        into.copy_from_slice(page.bytes());
        Ok(())
    }

    fn put(&mut self, number: u32, bytes: &[u8]) -> Result<(), SpaceFault> {
        let page = &mut self.pages[number as usize - 1];
        page.copy_from(bytes);
        self.changed = true;
        Ok(())
    }

    fn grow(&mut self) -> Result<u32, SpaceFault> {
        let pages = self.size() + 1;
        if pages as u64 * self.page_size as u64 > GREATEST_LENGTH {
            return Err(SpaceFault::Large { pages });
        }
        let page = Page::zeros(self.alloc, self.page_size as usize)?;
        self.pages.push(page)?;
        self.changed = true;
        Ok(pages)
    }
}
