//! One page: as it was read, as it was at the mark, and as it is now.

ghost use Rattle.std.specs.Prelude.{◌≡◌, map};
ghost use Rattle.page_draft.specs.Slots.{changed_slot};

use byte_base::Bytes;

/// A page as it was read.
#[derive(Debug, Drop)]
pub enum ReadPage {
    /// Its bytes, as many as a page has.
    Good(Bytes),
    /// It fails its checksum: the sum that it keeps, and the one that it should keep, as big-endian numbers.
    Bad { kept: u64, found: u64 },
}

/// A page of a draft. What it holds now is what was put last, or else what it held at the mark, or else what was read.
#[derive(Debug, Drop)]
pub(crate) struct Slot {
    /// As it was read.
    pub read: ReadPage,
    /// What was put before the mark.
    pub marked: Option<Bytes>,
    /// What was put since.
    pub put: Option<Bytes>,
}

/// What is made of a page.
#[derive(Clone, Copy, Debug)]
pub(crate) enum Change {
    /// What it holds now is what it holds at the mark.
    Mark,
    /// It holds again what it held at the mark.
    Undo,
    /// It holds what was read, at the mark too.
    Discard,
    /// What it holds now is what was read.
    Keep,
}

impl Slot {
    ghost use Rattle.std.specs.Prelude.{◌≡◌, ℕ, Some, None, IfOk, IfErr};
    ghost use Rattle.page_draft.specs.Slots.{good, read_of, now_of, changed_slot};
    ghost use Rattle.page_draft.specs.declared.slot.Change.TheVariants.{Mark, Discard, Keep};

    /// A page that was read, and nothing put.
    pub fn read(page: ReadPage) -> Slot
        ensures { result ≡ record { read = page; marked = None; put = None } }
    {
        Slot {
            read: page,
            marked: None,
            put: None,
        }
    }

    /// Its bytes as they were read, or the sums by which it fails.
    pub fn as_read(&self) -> Result<&[u8], (u64, u64)>
        ensures good { IfOk result (λ bytes. (page_size : ℕ) → read_of page_size self.now ≡ good bytes.now) }
        ensures bad { IfErr result (λ sums. (page_size : ℕ) → (read_of page_size self.now).bad ≡ Some sums) }
    {
        match &self.read {
            ReadPage::Good(bytes) => Ok(bytes.as_slice()),
            ReadPage::Bad { kept, found } => Err((*kept, *found)),
        }
    }

    /// Its bytes as they are now, or the sums by which it fails.
    pub fn as_now(&self) -> Result<&[u8], (u64, u64)>
        ensures good { IfOk result (λ bytes. (page_size : ℕ) → now_of page_size self.now ≡ good bytes.now) }
        ensures bad { IfErr result (λ sums. (page_size : ℕ) → (now_of page_size self.now).bad ≡ Some sums) }
    {
        if let Some(bytes) = &self.put {
            return Ok(bytes.as_slice());
        }
        if let Some(bytes) = &self.marked {
            return Ok(bytes.as_slice());
        }
        self.as_read()
    }

    /// Changes it.
    fn change(&mut self, change: Change)
        ensures { self.new ≡ changed_slot change self.old }
    {
        match change {
            Change::Mark => self.mark(),
            Change::Undo => self.put = None,
            Change::Discard => self.discard(),
            Change::Keep => self.keep(),
        }
    }

    fn mark(&mut self)
        ensures { self.new ≡ changed_slot Mark self.old }
    {
        if let Some(bytes) = self.put.take() {
            self.marked = Some(bytes);
        }
    }

    fn discard(&mut self)
        ensures { self.new ≡ changed_slot Discard self.old }
    {
        self.marked = None;
        self.put = None;
    }

    fn keep(&mut self)
        ensures { self.new ≡ changed_slot Keep self.old }
    {
        self.mark();
        if let Some(bytes) = self.marked.take() {
            self.read = ReadPage::Good(bytes);
        }
    }
}

/// Changes each of these slots.
pub(crate) fn change_all(slots: &mut Vec<Slot>, change: Change)
    ensures { slots.new.items ≡ map (changed_slot change) slots.old.items }
{
    for slot in slots.iter_mut() {
        slot.change(change);
    }
}
