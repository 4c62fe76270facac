//! Pages that stand in memory one after the other.

ghost use Rattle.std.specs.Prelude.{◌≡◌, ◌≤◌, ◌↔◌, length, slice_get, Some, IsTrue};
ghost use Rattle.ref_pages.specs.Listed.{IsSized};

use db_format::Bytes;

/// A page: its bytes, and its mark.
#[derive(Debug, Drop)]
pub struct RefPage {
    /// All its bytes, those behind the usable ones too.
    pub bytes: Bytes,
    /// Where the page fails its checksum, the checksum that is kept and the one that it has.
    pub bad: Option<(u64, u64)>,
}

/// The pages of a database: page 1 is the first of them.
#[derive(Debug, Drop)]
pub struct RefPages {
    usable: u32,
    items: Vec<RefPage>,
    ghost sized: { IsSized usable items.items },
}

impl RefPages {
    ghost use Rattle.std.specs.Prelude.{◌≡◌, ◌≤◌, ℕ, length, IfSome, IfNone, Some, None};
    ghost use Rattle.page_list.specs.Pages.{HasPage, IsGood};
    ghost use Rattle.ref_pages.specs.Listed.{listed, item_of, IsSized};
    ghost use Rattle.ref_pages.specs.AsPages.{pages_of};

    /// The pages, of which `usable` bytes each hold content, without taking memory. `None` where the usable size is
    /// not from 480 to 65536, a page has fewer bytes than that or more than 65536, or there are more than 4294967294.
    pub fn new(usable: u32, pages: Vec<RefPage>) -> Option<RefPages>
        ensures some { IfSome result (λ made. IsSized usable pages.items × (pages_of made ≡ listed usable pages.items)) }
        ensures none { IfNone result (¬ (IsSized usable pages.items)) }
    {
        if are_sized(usable, pages.as_slice()) {
            Some(RefPages {
                usable,
                items: pages,
            })
        } else {
            None
        }
    }

    /// How many pages there are.
    pub fn size(&self) -> u32
        ensures is { result ≡ (pages_of self.now).size }
        ensures most { result ≤ 4294967294 }
    {
        self.items.len() as u32
    }

    /// How many bytes of each page hold content.
    pub fn usable(&self) -> u32
        ensures is { result ≡ (pages_of self.now).usable }
        ensures least { 480 ≤ result }
        ensures most { result ≤ 65536 }
    {
        self.usable
    }

    /// The bytes of a page, where it is there.
    pub fn bytes_of(&self, number: u32) -> Option<&[u8]>
        ensures there { IfSome result (λ bytes. HasPage (pages_of self.now) number) }
        ensures is { IfSome result (λ bytes. bytes.now ≡ (pages_of self.now).bytes number) }
        ensures whole { IfSome result (λ bytes. self.now.usable ≤ length bytes.now) }
        ensures short { IfSome result (λ bytes. length bytes.now ≤ 65536) }
        ensures none { IfNone result (¬ (HasPage (pages_of self.now) number)) }
    {
        let Some(page) = self.page(number) else {
            return None;
        };
        Some(page.bytes.as_slice())
    }

    /// The mark of a page that fails its checksum: the one that is kept, and the one that it has.
    pub fn mark_of(&self, number: u32) -> Option<(u64, u64)>
        ensures { result ≡ (pages_of self.now).bad number }
    {
        let Some(page) = self.page(number) else {
            return None;
        };
        page.bad
    }

    /// A page, where it is there.
    fn page(&self, number: u32) -> Option<&RefPage>
        ensures some { IfSome result (λ page. item_of self.now.items.items number ≡ Some page.now) }
        ensures none { IfNone result (item_of self.now.items.items number ≡ None) }
    {
        if number == 0 {
            return None;
        }
        self.items.as_slice().get(number as usize - 1)
    }
}

/// Whether the pages are as large and as many as those of a database may be.
fn are_sized(usable: u32, pages: &[RefPage]) -> bool
    ensures { IsTrue result ↔ IsSized usable pages.now }
{
    480 <= usable
        && usable <= 65536
        && pages.len() <= 4294967294
        && pages.iter().all(|page| is_sized(usable, page))
}

/// Whether a page is as large as one of a database may be.
fn is_sized(usable: u32, page: &RefPage) -> bool
    ensures { IsTrue result ↔ (usable ≤ length page.now.bytes) × (length page.now.bytes ≤ 65536) }
{
    let len = page.bytes.as_slice().len();
    usable as usize <= len && len <= 65536
}
