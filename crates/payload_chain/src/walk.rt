//! A walk along a chain, which reading and freeing share.

ghost use Rattle.std.specs.Prelude.{◌≡◌, ◌≢◌, ℕ, ◌-◌, ◌≤◌, ◌<◌, length, IsTrue, IfOk, IfErr, OnOk};
ghost use Rattle.page_list.specs.Chain.{pages_needed};
ghost use Rattle.page_pool.specs.Space.{IsReady, HasSizes, Steady, Stays};
ghost use Rattle.payload_chain.specs.Steps.{HasMet, Begins, StepsOn, StepRefused};

use byte_base::u32_at;
use page_pool::{PageSpace, SpaceFault};
use std::alloc::Global;
use std::collections::BTreeSet;

/// How far a walk along a chain has come.
#[derive(Drop)]
pub struct Walk {
    /// The pages so far, in order.
    pub numbers: Vec<u32>,
    /// The same pages, to look them up.
    pub met: BTreeSet<u32>,
    /// The last of them, which holds the next number; the first number itself where there is none.
    pub holder: u32,
    /// The number of the next page, 0 at the end of the chain.
    pub next: u32,
}

impl Walk {
    /// A walk that begins at a page, without taking memory.
    pub fn new(alloc: Global, first: u32) -> Walk
        ensures { Begins result first }
    {
        Walk {
            numbers: Vec::new(alloc),
            met: BTreeSet::new(alloc),
            holder: first,
            next: first,
        }
    }

    /// Goes one page further, and reads that page into a buffer of one page.
    pub fn step<S: PageSpace>(&mut self, space: &mut S, page: &mut [u8]) -> Result<(), SpaceFault>
        requires ready { IsReady (S.state space.old) }
        requires sizes { HasSizes (S.state space.old) }
        requires one_page { length page.old ≡ (S.state space.old).page_size }
        requires met { HasMet self.old.met self.old.numbers.items }
        ensures steady { Steady (S.state space.old) (S.state space.new) }
        ensures stays { Stays (S.state space.old) (S.state space.new) }
        ensures cause { IfErr result (StepRefused (S.state space.old) (S.state space.new) self.old) }
        ensures ok { OnOk result (StepsOn (S.state space.old) self.old self.new page.new) }
    {
        let number = self.next;
        if number == 0 || space.size() < number {
            return Err(SpaceFault::Corrupt { page: self.holder });
        }
        if !self.met.insert(number)? {
            return Err(SpaceFault::Corrupt { page: number });
        }
        space.get(number, page)?;
        self.numbers.push(number)?;
        self.holder = number;
        self.next = u32_at(page, 0);
        Ok(())
    }

    /// The pages of the walk, where the chain ends here.
    pub fn finish(self) -> Result<Vec<u32>, SpaceFault>
        ensures pages { IfOk result (λ numbers. (numbers.items ≡ self.numbers.items) × (self.next ≡ 0)) }
        ensures cause { IfErr result (λ fault. (fault ≡ SpaceFault.Corrupt self.holder) × (self.next ≢ 0)) }
    {
        let Walk {
            numbers,
            met: _,
            holder,
            next,
        } = self;
        if next != 0 {
            return Err(SpaceFault::Corrupt { page: holder });
        }
        Ok(numbers)
    }
}

/// How many bytes of a payload a page of a chain holds: all that are used but the four of the next number.
pub fn room<S: PageSpace>(space: &S) -> u32
    requires ready { IsReady (S.state space.now) }
    ensures value { result ≡ (S.state space.now).pages.usable - 4 }
    ensures sizes { HasSizes (S.state space.now) }
{
    space.usable() - 4
}

/// How many pages a chain of so many bytes has.
pub fn pages_needed<S: PageSpace>(space: &S, len: u64) -> u64
    requires ready { IsReady (S.state space.now) }
    ensures value { result ≡ pages_needed (S.state space.now).pages.usable len }
    ensures sizes { HasSizes (S.state space.now) }
{
    len.div_ceil(u64::from(room(space)))
}

/// A buffer of one page, of zeros.
pub fn page_buffer<S: PageSpace>(alloc: Global, space: &S) -> Result<Vec<u8>, SpaceFault>
    requires ready { IsReady (S.state space.now) }
    ensures one_page { IfOk result (λ page. length page.items ≡ (S.state space.now).page_size) }
    ensures cause { IfErr result (λ fault. fault ≡ SpaceFault.Memory) }
{
    Ok(vec![in alloc; 0u8; space.page_size() as usize]?)
}
