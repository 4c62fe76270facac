//! The cache.

ghost use Rattle.std.specs.Prelude.{◌≡◌, ℕ, ◌≤◌, length, is_some, MatchOption, IfOk, OnOk, OnErr};
ghost use Rattle.page_cache.specs.Pages.{no_pages, page_at, after_put, after_use, IsCache, IsSized, SamePages, Stores};

use lru::LruCache;
use std::alloc::{AllocError, Global};
use std::marker::Model;
use std::num::NonZeroUsize;

/// Pages by their numbers. Contracts see the list of the pages, the last used first, and how many there
/// may be.
#[derive(Debug, Drop)]
pub struct Cache {
    pages: LruCache<u32, Vec<u8>>,
}

impl Model for Cache {
    ghost use Rattle.page_cache.specs.Pages.{Pages};

    ghost Value = { Pages };

    ghost use Rattle.page_cache.specs.CacheFields.{pages_of, IsKept};

    ghost view = { pages_of };

    ghost invariant = { IsKept };
}

impl Cache {
    /// An empty cache of at most so many pages. Its table takes its memory at once, and each page when it is
    /// put.
    pub fn new(alloc: Global, capacity: u32) -> Result<Cache, AllocError>
        requires { 1 ≤ capacity }
        ensures empty { IfOk result (λ cache. cache ≡ no_pages capacity) }
        ensures cache { IfOk result IsCache }
        ensures sized { IfOk result (λ cache. (size : ℕ) → IsSized size cache) }
    {
        let capacity = NonZeroUsize::new(capacity as usize).unwrap();
        let pages = LruCache::new(alloc, capacity)?;
        Ok(Cache { pages })
    }

    /// Copies the page of a number, which becomes the last used one, and answers whether it is there. Where it
    /// is not, the buffer stays as it was. The buffer has the length that all pages have. Takes no memory.
    pub fn get(&mut self, number: u32, into: &mut [u8]) -> bool
        requires { IsSized (length into.old) self.old }
        ensures found { result ≡ is_some (page_at self.old number) }
        ensures page { MatchOption (page_at self.old number) (into.new ≡ into.old) (λ page. into.new ≡ page) }
        ensures pages { self.new ≡ after_use self.old number }
        ensures same { SamePages self.old self.new }
        ensures cache { IsCache self.new }
        ensures sized { IsSized (length into.old) self.new }
    {
        match self.pages.get(&number) {
            Some(page) => {
                into.copy_from_slice(page);
                true
            }
            None => false,
        }
    }

    /// Puts a page as the last used one, in place of an older page of its number. Where there is no room, the
    /// least recently used page is dropped. Without memory the cache stays as it was.
    pub fn put_clean(&mut self, number: u32, page: &[u8]) -> Result<(), AllocError>
        ensures ok { OnOk result (self.new ≡ after_put self.old number page.now) }
        ensures stores { OnOk result (Stores self.old self.new number page.now) }
        ensures err { OnErr result (self.new ≡ self.old) }
        ensures cache { IsCache self.new }
        ensures sized { IsSized (length page.now) self.old → IsSized (length page.now) self.new }
    {
        let copy = page.to_vec(*self.pages.allocator())?;
        self.pages.put(number, copy)?;
        Ok(())
    }

    /// Drops all pages. Takes no memory.
    pub fn drop_all(&mut self)
        ensures empty { self.new ≡ no_pages self.old.capacity }
        ensures cache { IsCache self.new }
        ensures sized { (size : ℕ) → IsSized size self.new }
    {
        self.pages.clear();
    }
}

#[cfg(test)]
mod tests {
    use super::*;
    use std::test::Fail;

    /// Puts a page of four times this byte.
    fn put(cache: &mut Cache, number: u32, byte: u8) -> Result<(), AllocError>
        requires { IsSized 4 cache.old }
        ensures { IsSized 4 cache.new }
    {
        cache.put_clean(number, &[byte; 4])
    }

    /// The page of a number.
    fn find(cache: &mut Cache, number: u32) -> Option<[u8; 4]>
        requires { IsSized 4 cache.old }
        ensures { IsSized 4 cache.new }
    {
        let mut page = [0; 4];
        cache.get(number, &mut page).then_some(page)
    }

    #[test]
    fn the_least_recently_used_makes_room(rt: HostRuntime) -> Result<(), Fail> {
        let mut cache = Cache::new(rt.alloc(), 2)?;
        put(&mut cache, 7, 1)?;
        put(&mut cache, 9, 2)?;
        assert!(rt; find(&mut cache, 7) == Some([1; 4]));
        put(&mut cache, 8, 3)?;
        assert!(rt; find(&mut cache, 9).is_none());
        put(&mut cache, 7, 4)?;
        assert!(rt; find(&mut cache, 8) == Some([3; 4]));
        assert!(rt; find(&mut cache, 7) == Some([4; 4]));
        cache.drop_all();
        assert!(rt; find(&mut cache, 7).is_none());
        Ok(())
    }
}
