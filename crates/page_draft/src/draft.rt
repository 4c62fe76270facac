//! The pages, and what calls make of them.

ghost use Rattle.std.specs.Prelude.{◌≡◌, ◌+◌, ◌*◌, ◌≤◌, length, take, map, replicate, IfOk, IfErr};
ghost use Rattle.db_format.specs.Header.{greatest_length, IsPageSize};
ghost use Rattle.page_draft.specs.Slots.{read_of, marked_of, now_of, AllLong, AllGoodFrom};

use crate::slot::{Change, ReadPage, Slot, change_all};
use byte_base::Bytes;
use db_format::SpaceFault;
use std::alloc::{AllocError, Global};

/// The greatest length of a database, in bytes.
const GREATEST_LENGTH: u64 = 1 << 30;

/// The pages of a database as they were read, with a draft over them.
#[derive(Debug, Drop)]
pub struct PageDraft {
    alloc: Global,
    page_size: u32,
    usable: u32,
    slots: Vec<Slot>,
    /// How many of them were read, and how many there were at the mark.
    read_len: usize,
    marked_len: usize,
    /// Whether something was put or added, and whether it had been at the mark.
    changed: bool,
    marked_changed: bool,
    ghost size_of_page: { IsPageSize page_size },
    ghost least: { 480 ≤ usable },
    ghost most: { usable ≤ page_size },
    ghost spare: { page_size ≤ usable + 255 },
    ghost few: { length slots.items * page_size ≤ greatest_length },
    ghost read_within: { read_len ≤ marked_len },
    ghost marked_within: { marked_len ≤ length slots.items },
    ghost read_long: { AllLong page_size (take read_len (map (read_of page_size) slots.items)) },
    ghost marked_long: { AllLong page_size (take marked_len (map (marked_of page_size) slots.items)) },
    ghost now_long: { AllLong page_size (map (now_of page_size) slots.items) },
    ghost added_good: { AllGoodFrom read_len (map (read_of page_size) slots.items) },
}

impl PageDraft {
    ghost use Rattle.std.specs.Prelude.{◌-◌, ◌<◌, true, [], ◌∷◌, ◌++◌, OnOk, OnErr};
    ghost use Rattle.page_list.specs.Pages.{HasPage, IsGood};
    ghost use Rattle.page_list.specs.Edits.{with_page, grown};
    ghost use Rattle.page_draft.specs.Slots.{shown};
    ghost use Rattle.page_draft.specs.Draft.{read_list, marked_list, now_list, read_pages, now_pages, HasSizes, IsClean, IsLong, with_last, KeepsSizes, KeepsRead, KeepsMark, Stays, IsBad, PageFails, PassesGreatest, GrowFails};

    /// No pages, of this size in bytes, with so many bytes reserved at the end of each. It takes no memory.
    pub fn new(alloc: Global, page_size: u32, reserved: u8) -> PageDraft
        requires size { IsPageSize page_size }
        requires room { 480 + reserved ≤ page_size }
        ensures page_size { result.page_size ≡ page_size }
        ensures usable { result.usable ≡ page_size - reserved }
        ensures empty { (read_pages result).size ≡ 0 }
        ensures clean { IsClean result }
    {
        PageDraft {
            alloc,
            page_size,
            usable: page_size - reserved as u32,
            slots: Vec::new(alloc),
            read_len: 0,
            marked_len: 0,
            changed: false,
            marked_changed: false,
        }
    }

    /// The size of a page in bytes.
    pub fn page_size(&self) -> u32
        ensures { result ≡ self.now.page_size }
    {
        self.page_size
    }

    /// How many bytes of a page are used.
    pub fn usable(&self) -> u32
        ensures { result ≡ self.now.usable }
    {
        self.usable
    }

    /// How many pages there are now.
    pub fn size(&self) -> u32
        ensures value { result ≡ (now_pages self.now).size }
        ensures sizes { HasSizes self.now.page_size (now_pages self.now) }
    {
        self.slots.len() as u32
    }

    /// How many pages were read.
    pub fn read_size(&self) -> u32
        ensures value { result ≡ (read_pages self.now).size }
        ensures sizes { HasSizes self.now.page_size (read_pages self.now) }
    {
        self.read_len as u32
    }

    /// Whether something was put or added.
    pub fn changed(&self) -> bool
        ensures { result ≡ self.now.changed }
    {
        self.changed
    }

    /// Adds a page that was read, while nothing was put or added. Without memory the pages stay.
    pub fn push_read(&mut self, page: ReadPage) -> Result<(), AllocError>
        requires clean { IsClean self.old }
        requires long { IsLong self.old.page_size page }
        requires few { ((read_pages self.old).size + 1) * self.old.page_size ≤ greatest_length }
        ensures sizes { KeepsSizes self.old self.new }
        ensures clean { IsClean self.new }
        ensures read { OnOk result (read_list self.new ≡ read_list self.old ++ shown self.old.page_size page ∷ []) }
        ensures pages { OnOk result (read_pages self.new ≡ with_last (shown self.old.page_size page) (read_pages self.old)) }
        ensures refused { OnErr result (read_list self.new ≡ read_list self.old) }
    {
        self.slots.push(Slot::read(page))?;
        self.read_len = self.slots.len();
        self.marked_len = self.slots.len();
        Ok(())
    }

    /// The bytes of a page as it is now. Refused with `Bad` alone, just where it fails its checksum, as only one that was read does.
    pub fn page(&self, number: u32) -> Result<&[u8], SpaceFault>
        requires there { HasPage (now_pages self.now) number }
        ensures good { OnOk result (IsGood (now_pages self.now) number) }
        ensures long { IfOk result (λ bytes. length bytes.now ≡ self.now.page_size) }
        ensures bytes { IfOk result (λ bytes. bytes.now ≡ (now_pages self.now).bytes number) }
        ensures refused { IfErr result (IsBad (now_pages self.now) number) }
        ensures was_read { OnErr result (number ≤ (read_pages self.now).size) }
    {
        let slot = &self.slots[number as usize - 1];
        match slot.as_now() {
            Ok(bytes) => Ok(bytes),
            Err((kept, found)) => Err(SpaceFault::Bad {
                page: number,
                kept,
                found,
            }),
        }
    }

    /// The bytes of a page as it was read. Refused with `Bad` alone, just where it fails its checksum.
    pub fn read_page(&self, number: u32) -> Result<&[u8], SpaceFault>
        requires there { HasPage (read_pages self.now) number }
        ensures good { OnOk result (IsGood (read_pages self.now) number) }
        ensures long { IfOk result (λ bytes. length bytes.now ≡ self.now.page_size) }
        ensures bytes { IfOk result (λ bytes. bytes.now ≡ (read_pages self.now).bytes number) }
        ensures refused { IfErr result (IsBad (read_pages self.now) number) }
    {
        let slot = &self.slots[number as usize - 1];
        match slot.as_read() {
            Ok(bytes) => Ok(bytes),
            Err((kept, found)) => Err(SpaceFault::Bad {
                page: number,
                kept,
                found,
            }),
        }
    }

    /// Puts a page. Refused with `Memory`, and with `Bad` just where the page that is there fails its checksum: nothing has changed.
    pub fn put(&mut self, number: u32, bytes: &[u8]) -> Result<(), SpaceFault>
        requires there { HasPage (now_pages self.old) number }
        requires one_page { length bytes.now ≡ self.old.page_size }
        ensures keeps { KeepsMark self.old self.new }
        ensures good { OnOk result (IsGood (now_pages self.old) number) }
        ensures put { OnOk result (now_pages self.new ≡ with_page number bytes.now (now_pages self.old)) }
        ensures changed { OnOk result (self.new.changed ≡ true) }
        ensures refused { IfErr result (PageFails (now_pages self.old) number) }
        ensures stays { OnErr result (Stays self.old self.new) }
    {
        let copy = Bytes::copy_of(self.alloc, bytes)?;
        self.put_bytes(number, copy)
    }

    /// Puts a page whose bytes the caller owns. It takes no memory. Refused with `Bad` alone, just where the page that is there fails its
    /// checksum: nothing has changed.
    pub fn put_bytes(&mut self, number: u32, bytes: Bytes) -> Result<(), SpaceFault>
        requires there { HasPage (now_pages self.old) number }
        requires one_page { length bytes ≡ self.old.page_size }
        ensures keeps { KeepsMark self.old self.new }
        ensures good { OnOk result (IsGood (now_pages self.old) number) }
        ensures put { OnOk result (now_pages self.new ≡ with_page number bytes (now_pages self.old)) }
        ensures changed { OnOk result (self.new.changed ≡ true) }
        ensures refused { IfErr result (IsBad (now_pages self.old) number) }
        ensures stays { OnErr result (Stays self.old self.new) }
    {
        self.page(number)?;
        self.slots[number as usize - 1].put = Some(bytes);
        self.changed = true;
        Ok(())
    }

    /// Adds a page of zeros, and answers its number. Refused with `Memory`, and with `Large` of the pages that there would be, just where
    /// they pass 1,073,741,824 bytes: nothing has changed.
    pub fn grow(&mut self) -> Result<u32, SpaceFault>
        ensures keeps { KeepsMark self.old self.new }
        ensures next { IfOk result (λ number. number ≡ (now_pages self.old).size + 1) }
        ensures small { OnOk result (¬ (PassesGreatest self.old.page_size (now_pages self.old))) }
        ensures grown { OnOk result (now_pages self.new ≡ grown self.old.page_size (now_pages self.old)) }
        ensures changed { OnOk result (self.new.changed ≡ true) }
        ensures refused { IfErr result (GrowFails self.old.page_size (now_pages self.old)) }
        ensures stays { OnErr result (Stays self.old self.new) }
    {
        let pages = self.slots.len() as u32 + 1;
        if pages as u64 * self.page_size as u64 > GREATEST_LENGTH {
            return Err(SpaceFault::Large { pages });
        }
        let zeros = zeros(self.alloc, self.page_size as usize)?;
        let none = ReadPage::Good(Bytes::from_vec(Vec::new(self.alloc)));
        self.slots.push(Slot {
            read: none,
            marked: None,
            put: Some(zeros),
        })?;
        self.changed = true;
        Ok(pages)
    }

    /// Sets the mark, to which `undo` goes back. It takes no memory.
    pub fn mark(&mut self)
        ensures keeps { KeepsRead self.old self.new }
        ensures now { now_list self.new ≡ now_list self.old }
        ensures changed { self.new.changed ≡ self.old.changed }
        ensures marked { marked_list self.new ≡ now_list self.old }
        ensures mark { self.new.marked_changed ≡ self.old.changed }
    {
        change_all(&mut self.slots, Change::Mark);
        self.marked_len = self.slots.len();
        self.marked_changed = self.changed;
    }

    /// Takes all that was put and added since the mark back. It takes no memory.
    pub fn undo(&mut self)
        ensures keeps { KeepsMark self.old self.new }
        ensures now { now_list self.new ≡ marked_list self.old }
        ensures changed { self.new.changed ≡ self.old.marked_changed }
    {
        self.slots.truncate(self.marked_len);
        change_all(&mut self.slots, Change::Undo);
        self.changed = self.marked_changed;
    }

    /// Throws away all that was put and added. It takes no memory.
    pub fn discard(&mut self)
        ensures keeps { KeepsRead self.old self.new }
        ensures clean { IsClean self.new }
    {
        self.slots.truncate(self.read_len);
        change_all(&mut self.slots, Change::Discard);
        self.marked_len = self.read_len;
        self.changed = false;
        self.marked_changed = false;
    }

    /// Makes the pages as they are now those that were read. It takes no memory.
    pub fn keep(&mut self)
        ensures sizes { KeepsSizes self.old self.new }
        ensures kept { read_list self.new ≡ now_list self.old }
        ensures clean { IsClean self.new }
    {
        change_all(&mut self.slots, Change::Keep);
        self.read_len = self.slots.len();
        self.marked_len = self.slots.len();
        self.changed = false;
        self.marked_changed = false;
    }
}

/// So many zeros.
fn zeros(alloc: Global, size: usize) -> Result<Bytes, AllocError>
    ensures { IfOk result (λ zeros. zeros ≡ replicate size 0) }
{
    Ok(Bytes::from_vec(vec![in alloc; 0; size]?))
}
