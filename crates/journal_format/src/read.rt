//! A journal as it is read.

ghost use Rattle.std.specs.Prelude.{◌≡◌, ℕ, ◌+◌, ◌-◌, ◌*◌, ◌≤◌, ◌<◌, ◌==◌, ◌++◌, true, length, is_some, OnOk, IfOk, IfSome, IsTrue};
ghost use Rattle.byte_base.specs.Numbers.{number_at};
ghost use Rattle.journal_format.specs.Undo.{ArePages, AreUpTo};
ghost use Rattle.journal_format.specs.Journal.{all_exist, is_size, of_form, records_end, trailer_name, named, counted, played, play_of, formed, hot};
ghost use Rattle.journal_format.specs.Values.{all_paged};
ghost use Rattle.journal_format.specs.Reading.{Gives, IsPlayable, CanPlay};
ghost use Rattle.journal_format.specs.Steps.{Goes, GoesOn, IsRecord, IsHeader, HasForm, name_if_super};

use crate::fault::JournalFault;
use crate::pages::{NumberedPage, PageList};
use crate::write::{MAGIC, checksum, lock_page, push_trailer};
use byte_base::{Bytes, u32_at};
use std::alloc::{AllocError, Global};
use vfs_model::{Kind, Name};

/// The length of a header.
const HEADER: usize = 28;

/// The count that stands for as many records as there are.
const NO_COUNT: u32 = u32::MAX;

/// The most bytes of a database, and of a journal.
const MOST_DATABASE: u64 = 1 << 30;

const MOST_JOURNAL: usize = 1 << 32;

/// What a journal stands for.
#[derive(Debug, Drop)]
pub enum Hot {
    /// It is not hot: nothing is played back.
    Cold,
    /// It is hot, unless it names a super-journal that does not exist, and this is played back.
    Play(Play),
}

/// What a hot journal plays back.
#[derive(Debug, Drop)]
pub struct Play {
    /// The page size, a power of two from 512 to 65,536.
    pub page: u32,
    /// The pages that the file is cut to.
    pub initial: u32,
    /// Pages that are written, in this order, each with a number from 1 to `initial`.
    pub records: PageList,
    /// The super-journal that the journal names: where it does not exist, the journal is not hot.
    pub super_name: Option<Name>,
}

/// The numbers of a header.
#[derive(Clone, Copy)]
struct Header {
    count: u32,
    nonce: u32,
    initial: u32,
    sector: u32,
    page: u32,
}

/// What comes of a record.
#[derive(Debug, Drop)]
enum Step {
    End,
    Skip,
    Take(NumberedPage),
}

/// What the whole bytes of a journal stand for, where each super-journal exists. `Foreign` exactly where the journal is hot and
/// not of the form that is played back: 28 bytes or more that begin with the magic, and a size that is no power of two from 512 to
/// 65,536, fewer bytes than the sector size, more than 2^30 bytes of pages, more than 2^32 bytes, or bytes other than one
/// trailer behind the records. After sqlite.org, "Database File Format", section 3; which hot journals are played back, and how
/// their records are taken, is this program's own choice.
#[tactic(auto, unfolding(crate::specs::Journal::hot))]
pub fn read_hot(alloc: Global, bytes: &[u8]) -> Result<Hot, JournalFault>
    ensures gives { Gives result (hot all_exist bytes.now) }
    ensures playable { IfOk result CanPlay }
{
    if bytes.len() < HEADER || !bytes.starts_with(&MAGIC) {
        return Ok(Hot::Cold);
    }
    read_form(alloc, bytes, &read_header(bytes))
}

/// The numbers of a header.
fn read_header(bytes: &[u8]) -> Header
    requires { 28 ≤ length bytes.now }
    ensures { IsHeader bytes.now result }
{
    Header {
        count: u32_at(bytes, 8),
        nonce: u32_at(bytes, 12),
        initial: u32_at(bytes, 16),
        sector: u32_at(bytes, 20),
        page: u32_at(bytes, 24),
    }
}

/// Reads a journal that begins with the magic and has these numbers in its header.
#[tactic(auto, using(crate::proofs::AskLemmas::all_there), unfolding(crate::specs::Journal::formed))]
fn read_form(alloc: Global, bytes: &[u8], header: &Header) -> Result<Hot, JournalFault>
    ensures gives { Gives result (formed all_exist header.now.count header.now.nonce header.now.initial header.now.sector header.now.page bytes.now) }
    ensures playable { IfOk result CanPlay }
{
    if !is_of_form(header, bytes.len()) {
        return Err(JournalFault::Foreign);
    }
    let super_name = read_named(alloc, bytes, header)?;
    match count_of(bytes, header, super_name.is_some()) {
        None => Err(JournalFault::Foreign),
        Some(count) => {
            let records = read_records(alloc, &bytes[header.sector as usize..], header, count)?;
            Ok(Hot::Play(Play {
                page: header.page,
                initial: header.initial,
                records,
                super_name,
            }))
        }
    }
}

/// Whether the sizes of the header and the length of the file are of the form that is played back.
fn is_of_form(header: &Header, len: usize) -> bool
    ensures value { result ≡ of_form header.now.sector header.now.page header.now.initial len }
    ensures form { IsTrue result → HasForm header.now len }
{
    is_size(header.sector)
        && is_size(header.page)
        && header.sector as usize <= len
        && u64::from(header.initial) * u64::from(header.page) <= MOST_DATABASE
        && len <= MOST_JOURNAL
}

/// Whether a number is a power of two from 512 to 65,536.
fn is_size(n: u32) -> bool
    ensures { result ≡ is_size n }
{
    n == 512
        || n == 1024
        || n == 2048
        || n == 4096
        || n == 8192
        || n == 16384
        || n == 32768
        || n == 65536
}

/// Where as many records as the count says end.
fn records_end(header: &Header) -> usize
    requires sector { header.now.sector ≤ 65536 }
    requires page { header.now.page ≤ 65536 }
    ensures { result ≡ records_end header.now.count header.now.sector header.now.page }
{
    header.sector as usize + header.count as usize * (header.page as usize + 8)
}

/// The super-journal that a journal names.
fn read_named(alloc: Global, bytes: &[u8], header: &Header) -> Result<Option<Name>, AllocError>
    requires { HasForm header.now (length bytes.now) }
    ensures { IfOk result (λ name. name ≡ named header.now.count header.now.sector header.now.page bytes.now) }
{
    let end = records_end(header);
    if header.count == NO_COUNT || bytes.len() < end {
        return Ok(None);
    }
    read_trailer(alloc, &bytes[end..], header.page)
}

/// The name in bytes that are one trailer and nothing else: those that are written for this name.
fn read_trailer(alloc: Global, bytes: &[u8], page: u32) -> Result<Option<Name>, AllocError>
    requires { 1 ≤ page }
    ensures { IfOk result (λ name. name ≡ trailer_name page bytes.now) }
{
    if bytes.len() < 20 {
        return Ok(None);
    }
    let Some(name) = super_name(&bytes[4..bytes.len() - 16]) else {
        return Ok(None);
    };
    let mut written = Bytes::from_vec(Vec::new(alloc));
    push_trailer(&mut written, page, &name)?;
    if written.as_slice() == bytes {
        Ok(Some(name))
    } else {
        Ok(None)
    }
}

/// The name with these bytes, where it is a super-journal's.
fn super_name(bytes: &[u8]) -> Option<Name>
    ensures { result ≡ name_if_super bytes.now }
{
    let name = Name::new(bytes)?;
    match name.kind() {
        Kind::Super => Some(name),
        _ => None,
    }
}

/// How many records a journal has that names a super-journal or does not; none where it is not of the form.
fn count_of(bytes: &[u8], header: &Header, is_named: bool) -> Option<usize>
    requires form { HasForm header.now (length bytes.now) }
    requires named { is_named ≡ is_some (named header.now.count header.now.sector header.now.page bytes.now) }
    ensures value { result ≡ counted header.now.count header.now.sector header.now.page bytes.now }
    ensures room { IfSome result (λ n. n * (header.now.page + 8) ≤ length bytes.now - header.now.sector) }
{
    if header.count == 0 {
        Some(0)
    } else if header.count == NO_COUNT {
        if bytes.ends_with(&MAGIC) {
            None
        } else {
            Some((bytes.len() - header.sector as usize) / (header.page as usize + 8))
        }
    } else if bytes.len() == records_end(header) || is_named {
        Some(header.count as usize)
    } else {
        None
    }
}

/// Reads the records that are played back, of so many.
fn read_records(
    alloc: Global,
    bytes: &[u8],
    header: &Header,
    count: usize,
) -> Result<PageList, AllocError>
    requires page { (512 ≤ header.now.page) }
    requires small { header.now.page ≤ 65536 }
    requires room { count * (header.now.page + 8) ≤ length bytes.now }
    ensures played { IfOk result (λ pages. all_paged pages ≡ played header.now.page header.now.initial header.now.nonce count bytes.now) }
    ensures pages { IfOk result (λ pages. ArePages header.now.page (all_paged pages)) }
    ensures within { IfOk result (λ pages. AreUpTo header.now.initial (all_paged pages)) }
{
    let mut pages = PageList::from_vec(Vec::new(alloc));
    let mut rest = bytes;
    for _k in 0..count {
        if !take_record(alloc, &mut pages, rest, header)? {
            return Ok(pages);
        }
        rest = &rest[header.page as usize + 8..];
    }
    Ok(pages)
}

/// Reads one record into the pages, and says whether the playback goes on.
fn take_record(
    alloc: Global,
    pages: &mut PageList,
    bytes: &[u8],
    header: &Header,
) -> Result<bool, AllocError>
    requires page { (512 ≤ header.now.page) }
    requires small { header.now.page ≤ 65536 }
    requires room { header.now.page + 8 ≤ length bytes.now }
    ensures goes { IfOk result (λ more. GoesOn more (all_paged pages.old) (all_paged pages.new) header.now.page header.now.initial header.now.nonce bytes.now) }
    ensures pages { OnOk result (ArePages header.now.page (all_paged pages.old) → ArePages header.now.page (all_paged pages.new)) }
    ensures within { OnOk result (AreUpTo header.now.initial (all_paged pages.old) → AreUpTo header.now.initial (all_paged pages.new)) }
{
    match read_record(alloc, bytes, header)? {
        Step::End => Ok(false),
        Step::Skip => Ok(true),
        Step::Take(original) => {
            pages.push(original)?;
            Ok(true)
        }
    }
}

/// Reads one record.
#[tactic(auto, unfolding(crate::specs::Journal::played))]
fn read_record(alloc: Global, bytes: &[u8], header: &Header) -> Result<Step, AllocError>
    requires page { (512 ≤ header.now.page) }
    requires small { header.now.page ≤ 65536 }
    requires room { header.now.page + 8 ≤ length bytes.now }
    ensures goes { IfOk result (λ step. Goes step header.now.page header.now.initial header.now.nonce bytes.now) }
    ensures fits { IfOk result (IsRecord header.now.page header.now.initial) }
{
    let number = u32_at(bytes, 0);
    if number == 0 || number == lock_page(header.page) {
        return Ok(Step::End);
    }
    if header.initial < number {
        return Ok(Step::Skip);
    }
    let end = header.page as usize + 4;
    let original = &bytes[4..end];
    if u32_at(bytes, end) != checksum(header.nonce, original) {
        return Ok(Step::End);
    }
    Ok(Step::Take(NumberedPage {
        number,
        bytes: Bytes::copy_of(alloc, original)?,
    }))
}
