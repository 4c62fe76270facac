//! The trait of a page space.

ghost use Rattle.std.specs.Prelude.{◌≡◌, ℕ, ◌≤◌, length, IsTrue, OnOk, OnErr};
ghost use Rattle.page_list.specs.Pages.{HasPage};
ghost use Rattle.page_pool.specs.Space.{SpaceState, IsReady, IsWritable, HasSizes, Steady, Stays, PageCause, GrowCause, PutLeaves, GrowLeaves, IsZeroFrom};

use db_format::SpaceFault;

/// The pages of a database, as a list that can be read, changed and grown. What contracts say of it is one
/// record, its state.
///
/// Clauses on what pages hold stand where the state tells it. The refusals of a call come in the order
/// `Memory`, `Failed`, `Bad`, `Large`. After a refusal the pages are as they were.
pub trait PageSpace: Drop {
    ghost state: { Self → SpaceState };

    /// The size of a page in bytes: a power of two from 512 to 65536.
    fn page_size(&self) -> u32
        requires ready { IsReady (state self.now) }
        ensures value { result ≡ (state self.now).page_size }
        ensures sizes { HasSizes (state self.now) };

    /// How many bytes of a page are used, from 480 to the size of a page.
    fn usable(&self) -> u32
        requires ready { IsReady (state self.now) }
        ensures value { result ≡ (state self.now).pages.usable }
        ensures sizes { HasSizes (state self.now) };

    /// How many pages there are.
    fn size(&self) -> u32
        requires ready { IsReady (state self.now) }
        ensures value { result ≡ (state self.now).pages.size }
        ensures sizes { HasSizes (state self.now) };

    /// Reads a page, from 1 to the size, into a buffer of one page.
    ///
    /// Refused with `Failed`, with `Memory`, or with `Bad` exactly where the page fails its checksum.
    fn get(&mut self, number: u32, into: &mut [u8]) -> Result<(), SpaceFault>
        requires ready { IsReady (state self.old) }
        requires there { HasPage (state self.old).pages number }
        requires one_page { length into.old ≡ (state self.old).page_size }
        ensures steady { Steady (state self.old) (state self.new) }
        ensures stays { Stays (state self.old) (state self.new) }
        ensures cause { PageCause (state self.old) (state self.new) number result }
        ensures page { IsTrue (state self.old).tells → OnOk result (into.new ≡ (state self.old).pages.bytes number) };

    /// Writes a page, from 1 to the size. Its bytes from the usable size on are zero. The page that was there
    /// is kept for as long as the change can be undone, and is read for that.
    ///
    /// Refused with `Failed`, with `Memory`, or with `Bad` exactly where the page that was there fails its checksum.
    fn put(&mut self, number: u32, bytes: &[u8]) -> Result<(), SpaceFault>
        requires writable { IsWritable (state self.old) }
        requires there { HasPage (state self.old).pages number }
        requires one_page { length bytes.now ≡ (state self.old).page_size }
        requires zeros { IsZeroFrom bytes.now (state self.old).pages.usable }
        ensures steady { Steady (state self.old) (state self.new) }
        ensures cause { PageCause (state self.old) (state self.new) number result }
        ensures leaves { PutLeaves (state self.old) (state self.new) number bytes.now result };

    /// Adds a page of zeros, and answers its number, the greatest.
    ///
    /// Refused with `Failed`, with `Memory`, or with `Large` of the pages that there would be, exactly where
    /// they pass 1,073,741,824 bytes.
    fn grow(&mut self) -> Result<u32, SpaceFault>
        requires writable { IsWritable (state self.old) }
        ensures steady { Steady (state self.old) (state self.new) }
        ensures cause { GrowCause (state self.old) (state self.new) result }
        ensures leaves { GrowLeaves (state self.old) (state self.new) result };
}
