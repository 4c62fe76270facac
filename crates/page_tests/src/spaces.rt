//! Spaces for tests: one in memory with a header, one that fails at a call, and one that keeps no pages.

ghost use Rattle.std.specs.Prelude.{◌≡◌, ◌*◌, ◌≤◌, [], false, None, ⊤, IfOk};
ghost use Rattle.page_pool.specs.Memory.{mem_state};

use byte_base::put_u32;
use db_format::new_header;
use page_pool::{MemSpace, PageSpace, SpaceFault, put_cleared};
use std::alloc::Global;
use std::process::Abort;
use std::test::Fail;

/// A space of so many pages of 512 bytes, at least one, with a header on page 1 that names this first trunk.
pub fn database(
    rt: &impl Abort,
    alloc: Global,
    pages: u32,
    first_trunk: u32,
) -> Result<MemSpace, Fail>
    ensures pages { IfOk result (λ space. (mem_state space).pages.size ≡ pages) }
    ensures page_size { IfOk result (λ space. (mem_state space).page_size ≡ 512) }
    ensures usable { IfOk result (λ space. (mem_state space).pages.usable ≡ 512) }
{
    let mut space = MemSpace::new(alloc, 512, 0)?;
    for _ in 0..pages {
        space.grow()?;
    }
    assert!(rt; pages > 0 && space.size() == pages);
    assert!(rt; space.page_size() == 512 && space.usable() == 512);
    let mut first = [0; 512];
    new_header(512, 0, &mut first);
    put_u32(&mut first, 32, first_trunk);
    put_cleared(&mut space, 1, &mut first)?;
    Ok(space)
}

/// A space in memory with one call among `get`, `put` and `grow` that fails, counted from 1, 0 for none.
#[derive(Drop)]
pub struct Flawed {
    pub space: MemSpace,
    pub fails_in: u32,
    pub faults: u64,
}

/// Whether this call is the one that fails.
fn is_last(calls: &mut u32) -> bool {
    let last = *calls == 1;
    *calls = calls.saturating_sub(1);
    last
}

impl PageSpace for Flawed {
    ghost state = { λ s. record (mem_state s.space) { faults = s.faults } };

    fn page_size(&self) -> u32 {
        self.space.page_size()
    }

    fn usable(&self) -> u32 {
        self.space.usable()
    }

    fn size(&self) -> u32 {
        self.space.size()
    }

    fn get(&mut self, number: u32, into: &mut [u8]) -> Result<(), SpaceFault> {
        if is_last(&mut self.fails_in) {
            self.faults = self.faults.saturating_add(1);
            return Err(SpaceFault::Failed);
        }
        self.space.get(number, into)
    }

    fn put(&mut self, number: u32, bytes: &[u8]) -> Result<(), SpaceFault> {
        if is_last(&mut self.fails_in) {
            self.faults = self.faults.saturating_add(1);
            return Err(SpaceFault::Failed);
        }
        self.space.put(number, bytes)
    }

    fn grow(&mut self) -> Result<u32, SpaceFault> {
        if is_last(&mut self.fails_in) {
            self.faults = self.faults.saturating_add(1);
            return Err(SpaceFault::Failed);
        }
        self.space.grow()
    }
}

/// A space of pages of 512 bytes that keeps how many there are and not what they hold: it tells nothing, and
/// reads zeros.
#[derive(Drop)]
pub struct Counted {
    pub pages: u32,
    pub changed: bool,
    ghost few: { pages * 512 ≤ 1073741824 },
}

impl PageSpace for Counted {
    ghost state = { λ s. record {
      tells = false;
      page_size = 512;
      pages = record { size = s.pages; usable = 512; bytes = λ _. []; bad = λ _. None };
      ready = ⊤;
      writable = ⊤;
      changed = s.changed;
      faults = 0;
    } };

    fn page_size(&self) -> u32 {
        512
    }

    fn usable(&self) -> u32 {
        512
    }

    fn size(&self) -> u32 {
        self.pages
    }

    fn get(&mut self, _number: u32, into: &mut [u8]) -> Result<(), SpaceFault> {
        into.fill(0);
        Ok(())
    }

    fn put(&mut self, _number: u32, _bytes: &[u8]) -> Result<(), SpaceFault> {
        self.changed = true;
        Ok(())
    }

    fn grow(&mut self) -> Result<u32, SpaceFault> {
        let pages = self.pages + 1;
        if pages > 2097152 {
            return Err(SpaceFault::Large { pages });
        }
        self.pages = pages;
        self.changed = true;
        Ok(pages)
    }
}
