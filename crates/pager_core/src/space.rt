//! The pages as a connection sees them, as a page space.

ghost use Rattle.pager_core.specs.Seen.{space_state};

use crate::pager::Pager;
use db_format::SpaceFault;
use page_pool::PageSpace;
use vfs_model::Owner;
use vfs_trait::Vfs;

/// The pages of a pager over its stack, as a connection sees them.
#[derive(Drop)]
pub struct Space<'a, V: Vfs> {
    pub pager: &'a mut Pager,
    pub stack: &'a mut V,
    pub who: Owner,
}

impl<'a, V: Vfs> PageSpace for Space<'a, V> {
    ghost state = { λ s. space_state (V.state s.stack.now) s.pager.now s.who };

    fn page_size(&self) -> u32 {
        // the pages say, when they are asked, that they have their sizes
        let _size = self.pager.seen_size(self.who);
        self.pager.pages.page_size()
    }

    fn usable(&self) -> u32 {
        let _size = self.pager.seen_size(self.who);
        self.pager.pages.usable()
    }

    fn size(&self) -> u32 {
        self.pager.seen_size(self.who)
    }

    fn get(&mut self, number: u32, into: &mut [u8]) -> Result<(), SpaceFault> {
        let _size = self.pager.seen_size(self.who);
        let bytes = self.pager.seen_page(self.who, number)?;
        into.copy_from_slice(bytes);
        Ok(())
    }

    fn put(&mut self, number: u32, bytes: &[u8]) -> Result<(), SpaceFault> {
        let done = self.pager.put_own(self.who, number, bytes);
        let _size = self.pager.seen_size(self.who);
        done
    }

    fn grow(&mut self) -> Result<u32, SpaceFault> {
        let done = self.pager.grow_own(self.who);
        let _size = self.pager.seen_size(self.who);
        done
    }
}
