//! Replies as text.

ghost use Rattle.std.specs.Prelude.{◌≡◌, ℕ, ◌<◌, ◌/◌, ◌%◌, List, [], ◌∷◌, ◌++◌, length, take, slice_index, codes, OnOk, OnErr};
ghost use Rattle.std.specs.Fmt.{decimal, signed_decimal};
ghost use Rattle.std.specs.List.{flat_map};
ghost use Rattle.hex.specs.Hex.{encode_lower, lower_digits};
ghost use Rattle.shell_lang.specs.Reply.{IsPrintable, IsRefusal, LinesHaveNoFeed, OneCut, ended, escaped, value_text, sum_text, checksum_line, corrupt_line, header_words, refusal_words, error_word, row_line, page_text, db_text, table_line, end_line, last_line, words, text_of};

use crate::{Db, ErrorWord, Reply, ScanEnd};
use byte_base::Bytes;
use byteorder::{BigEndian, ByteOrder};
use db_format::{HeaderFault, Record, TableEntry, Value};
use itoa::Buffer;
use percent_encoding::{AsciiSet, NON_ALPHANUMERIC, ascii_set, percent_encode};
use std::alloc::AllocError;
use vfs_trait::OpenFault;

/// The bytes of ASCII that are printed as escapes in a text.
const ESCAPED: AsciiSet = ascii_set!(
    NON_ALPHANUMERIC
        .remove(b'-')
        .remove(b'.')
        .remove(b'_')
        .remove(b'~')
);

/// The digits of blobs and checksums.
const DIGITS: &[u8; 16] = b"0123456789abcdef";

/// Puts the text of a reply at the end. Without memory the text stays as it was.
pub fn write_reply(reply: &Reply, out: &mut Bytes) -> Result<(), AllocError>
    requires printable { IsPrintable reply.now }
    ensures ok { OnOk result (out.new ≡ out.old ++ text_of reply.now) }
    ensures err { OnErr result (out.new ≡ out.old) }
{
    let len = out.as_slice().len();
    let put = put_reply(reply, out);
    if put.is_err() {
        out.truncate(len);
    }
    put
}

/// No line of a reply has a line feed.
pub fn lines_have_no_feed()
    ensures { LinesHaveNoFeed }
{}

/// A text of lines falls into them in one way.
pub fn one_cut()
    ensures { OneCut }
{}

/// Puts the text of a reply at the end. Without memory a part of it may stand there.
fn put_reply(reply: &Reply, out: &mut Bytes) -> Result<(), AllocError>
    requires { IsPrintable reply.now }
    ensures ok { OnOk result (out.new ≡ out.old ++ text_of reply.now) }
    ensures err { OnErr result (take (length out.old) out.new ≡ out.old) }
{
    match reply {
        Reply::Open { main } => put_count(out, b"open ", u64::from(*main)),
        Reply::Done => put_bytes(out, b"ok\n"),
        Reply::New => put_bytes(out, b"new\n"),
        Reply::Replaced => put_bytes(out, b"replaced\n"),
        Reply::Row { rowid, values } => put_row(out, *rowid, values.as_slice()),
        Reply::Nothing => put_bytes(out, b"none\n"),
        Reply::Rows { rows, last } => {
            put_rows(out, rows.as_slice())?;
            put_last(out, *last)
        }
        Reply::Count { rows } => put_count(out, b"count ", *rows),
        Reply::TableLines { tables } => {
            put_tables(out, tables.as_slice())?;
            put_count(out, b"end ", tables.as_slice().len() as u64)
        }
        Reply::Busy => put_bytes(out, b"busy\n"),
        Reply::Full { total, limit } => put_full(out, *total, *limit),
        Reply::Checksum {
            db,
            page,
            kept,
            found,
        } => put_checksum(out, *db, *page, *kept, *found),
        Reply::Corrupt { db, page } => put_corrupt(out, *db, *page),
        Reply::Large { pages } => put_count(out, b"large ", u64::from(*pages)),
        Reply::Worn => put_bytes(out, b"worn\n"),
        Reply::Fault => put_bytes(out, b"fault\n"),
        Reply::Stopped => put_bytes(out, b"stopped\n"),
        Reply::Memory => put_bytes(out, b"memory\n"),
        Reply::MemoryStopped => put_bytes(out, b"memory stopped\n"),
        Reply::Refused { db, why } => put_refused(out, *db, why),
        Reply::Error { word } => put_bytes(out, error_text(*word)),
    }
}

/// Puts bytes at the end. Each step below says as much as this: without memory what stood before is still in front.
fn put_bytes(out: &mut Bytes, bytes: &[u8]) -> Result<(), AllocError>
    ensures ok { OnOk result (out.new ≡ out.old ++ bytes.now) }
    ensures err { OnErr result (take (length out.old) out.new ≡ out.old) }
{
    out.extend_from_slice(bytes)
}

/// Puts a number in decimal.
fn put_number(out: &mut Bytes, number: u64) -> Result<(), AllocError>
    ensures ok { OnOk result (out.new ≡ out.old ++ decimal number) }
    ensures err { OnErr result (take (length out.old) out.new ≡ out.old) }
{
    put_bytes(out, Buffer::new().format(number).as_bytes())
}

/// Puts a number with a sign in decimal.
fn put_signed(out: &mut Bytes, number: i64) -> Result<(), AllocError>
    ensures ok { OnOk result (out.new ≡ out.old ++ signed_decimal number) }
    ensures err { OnErr result (take (length out.old) out.new ≡ out.old) }
{
    put_bytes(out, Buffer::new().format(number).as_bytes())
}

/// Puts a line that ends with a number.
fn put_count(out: &mut Bytes, front: &[u8], number: u64) -> Result<(), AllocError>
    ensures ok { OnOk result (out.new ≡ out.old ++ (front.now ++ (decimal number ++ 10 ∷ []))) }
    ensures err { OnErr result (take (length out.old) out.new ≡ out.old) }
{
    put_bytes(out, front)?;
    put_number(out, number)?;
    put_bytes(out, b"\n")
}

/// Puts the line of a group that would pass its limit.
fn put_full(out: &mut Bytes, total: u64, limit: u64) -> Result<(), AllocError>
    ensures ok { OnOk result (out.new ≡ out.old ++ (codes "full " ++ (decimal total ++ (codes " " ++ (decimal limit ++ 10 ∷ []))))) }
    ensures err { OnErr result (take (length out.old) out.new ≡ out.old) }
{
    put_bytes(out, b"full ")?;
    put_number(out, total)?;
    put_count(out, b" ", limit)
}

/// Puts bytes by two digits each.
fn put_hex(out: &mut Bytes, bytes: &[u8]) -> Result<(), AllocError>
    ensures ok { OnOk result (out.new ≡ out.old ++ encode_lower bytes.now) }
    ensures err { OnErr result (take (length out.old) out.new ≡ out.old) }
{
    for b in bytes {
        put_digits(out, *b)?;
    }
    Ok(())
}

/// Puts a byte by its two digits.
fn put_digits(out: &mut Bytes, b: u8) -> Result<(), AllocError>
    ensures ok { OnOk result (out.new ≡ out.old ++ (slice_index lower_digits (b / 16) ∷ slice_index lower_digits (b % 16) ∷ [])) }
    ensures err { OnErr result (take (length out.old) out.new ≡ out.old) }
{
    put_bytes(out, &[digit(b / 16), digit(b % 16)])
}

/// The digit of four bits.
fn digit(value: u8) -> u8
    requires { value < 16 }
    ensures { result ≡ slice_index lower_digits value }
{
    DIGITS[value as usize]
}

/// Puts a checksum by its sixteen digits.
fn put_sum(out: &mut Bytes, sum: u64) -> Result<(), AllocError>
    ensures ok { OnOk result (out.new ≡ out.old ++ sum_text sum) }
    ensures err { OnErr result (take (length out.old) out.new ≡ out.old) }
{
    let mut bytes = [0; 8];
    BigEndian::write_u64(&mut bytes, sum);
    put_hex(out, &bytes)
}

/// Puts the number of a page of a database.
fn put_page(out: &mut Bytes, db: Db, page: u32) -> Result<(), AllocError>
    ensures ok { OnOk result (out.new ≡ out.old ++ page_text db page) }
    ensures err { OnErr result (take (length out.old) out.new ≡ out.old) }
{
    match db {
        Db::Main => put_number(out, u64::from(page)),
    }
}

/// Puts the line of a page that fails its checksum.
fn put_checksum(out: &mut Bytes, db: Db, page: u32, kept: u64, found: u64) -> Result<(), AllocError>
    ensures ok { OnOk result (out.new ≡ out.old ++ ended (checksum_line db page kept found)) }
    ensures err { OnErr result (take (length out.old) out.new ≡ out.old) }
{
    put_bytes(out, b"checksum ")?;
    put_page(out, db, page)?;
    put_bytes(out, b" ")?;
    put_sums(out, kept, found)
}

/// Puts two checksums and the end of the line.
fn put_sums(out: &mut Bytes, kept: u64, found: u64) -> Result<(), AllocError>
    ensures ok { OnOk result (out.new ≡ out.old ++ (sum_text kept ++ 32 ∷ (sum_text found ++ 10 ∷ []))) }
    ensures err { OnErr result (take (length out.old) out.new ≡ out.old) }
{
    put_sum(out, kept)?;
    put_bytes(out, b" ")?;
    put_sum(out, found)?;
    put_bytes(out, b"\n")
}

/// Puts the line of a malformed page.
fn put_corrupt(out: &mut Bytes, db: Db, page: u32) -> Result<(), AllocError>
    ensures ok { OnOk result (out.new ≡ out.old ++ ended (corrupt_line db page)) }
    ensures err { OnErr result (take (length out.old) out.new ≡ out.old) }
{
    put_bytes(out, b"corrupt ")?;
    put_page(out, db, page)?;
    put_bytes(out, b"\n")
}

/// Puts a text with its escapes.
fn put_escaped(out: &mut Bytes, bytes: &[u8]) -> Result<(), AllocError>
    ensures ok { OnOk result (out.new ≡ out.old ++ escaped bytes.now) }
    ensures err { OnErr result (take (length out.old) out.new ≡ out.old) }
{
    let mut pieces = percent_encode(bytes, ESCAPED);
    while let Some(piece) = pieces.next() {
        put_bytes(out, piece.as_bytes())?;
    }
    Ok(())
}

/// Puts a value.
fn put_value(out: &mut Bytes, value: &Value) -> Result<(), AllocError>
    ensures ok { OnOk result (out.new ≡ out.old ++ value_text value.now) }
    ensures err { OnErr result (take (length out.old) out.new ≡ out.old) }
{
    match value {
        Value::Null => put_bytes(out, b"null"),
        Value::Int(number) => {
            put_bytes(out, b"i:")?;
            put_signed(out, *number)
        }
        Value::Text(bytes) => {
            put_bytes(out, b"t:")?;
            put_escaped(out, bytes.as_slice())
        }
        Value::Blob(bytes) => {
            put_bytes(out, b"b:")?;
            put_hex(out, bytes.as_slice())
        }
        Value::Real(_) => put_bytes(out, b"real"),
    }
}

/// Puts values, each behind a blank.
fn put_values(out: &mut Bytes, values: &[Value]) -> Result<(), AllocError>
    ensures ok { OnOk result (out.new ≡ out.old ++ flat_map (λ value. 32 ∷ value_text value) values.now) }
    ensures err { OnErr result (take (length out.old) out.new ≡ out.old) }
{
    for value in values {
        put_bytes(out, b" ")?;
        put_value(out, value)?;
    }
    Ok(())
}

/// Puts the line of a row.
fn put_row(out: &mut Bytes, rowid: i64, values: &[Value]) -> Result<(), AllocError>
    ensures ok { OnOk result (out.new ≡ out.old ++ ended (row_line (rowid, values.now))) }
    ensures err { OnErr result (take (length out.old) out.new ≡ out.old) }
{
    put_bytes(out, b"row ")?;
    put_signed(out, rowid)?;
    put_values(out, values)?;
    put_bytes(out, b"\n")
}

/// Puts the lines of rows.
fn put_rows(out: &mut Bytes, rows: &[(i64, Record)]) -> Result<(), AllocError>
    ensures ok { OnOk result (out.new ≡ out.old ++ flat_map (λ row. ended (row_line row)) rows.now) }
    ensures err { OnErr result (take (length out.old) out.new ≡ out.old) }
{
    for (rowid, values) in rows {
        put_row(out, *rowid, values.as_slice())?;
    }
    Ok(())
}

/// Puts the last line of a scan.
fn put_last(out: &mut Bytes, last: ScanEnd) -> Result<(), AllocError>
    ensures ok { OnOk result (out.new ≡ out.old ++ ended (last_line last)) }
    ensures err { OnErr result (take (length out.old) out.new ≡ out.old) }
{
    match last {
        ScanEnd::End { lines } => put_count(out, b"end ", lines),
        ScanEnd::Fault => put_bytes(out, b"fault\n"),
        ScanEnd::Memory => put_bytes(out, b"memory\n"),
        ScanEnd::Checksum {
            db,
            page,
            kept,
            found,
        } => put_checksum(out, db, page, kept, found),
        ScanEnd::Corrupt { db, page } => put_corrupt(out, db, page),
    }
}

/// Puts names, each behind a blank.
fn put_names(out: &mut Bytes, names: &[Bytes]) -> Result<(), AllocError>
    ensures ok { OnOk result (out.new ≡ out.old ++ flat_map (λ (name : List ℕ). 32 ∷ name) names.now) }
    ensures err { OnErr result (take (length out.old) out.new ≡ out.old) }
{
    for name in names {
        put_bytes(out, b" ")?;
        put_bytes(out, name.as_slice())?;
    }
    Ok(())
}

/// Puts the line of a table.
fn put_table(out: &mut Bytes, table: &TableEntry) -> Result<(), AllocError>
    ensures ok { OnOk result (out.new ≡ out.old ++ ended (table_line table.now)) }
    ensures err { OnErr result (take (length out.old) out.new ≡ out.old) }
{
    match table {
        TableEntry::Plain(create) => put_plain(
            out,
            create.name.as_slice(),
            create.columns.as_slice(),
        ),
        TableEntry::Foreign(name) => put_foreign(out, name.as_slice()),
    }
}

/// Puts the line of a plain table.
fn put_plain(out: &mut Bytes, name: &[u8], columns: &[Bytes]) -> Result<(), AllocError>
    ensures ok { OnOk result (out.new ≡ out.old ++ ended (words (codes "table" ∷ name.now ∷ columns.now))) }
    ensures err { OnErr result (take (length out.old) out.new ≡ out.old) }
{
    put_bytes(out, b"table ")?;
    put_bytes(out, name)?;
    put_names(out, columns)?;
    put_bytes(out, b"\n")
}

/// Puts the line of a table that is not plain.
fn put_foreign(out: &mut Bytes, name: &[u8]) -> Result<(), AllocError>
    ensures ok { OnOk result (out.new ≡ out.old ++ ended (words (codes "foreign" ∷ escaped name.now ∷ []))) }
    ensures err { OnErr result (take (length out.old) out.new ≡ out.old) }
{
    put_bytes(out, b"foreign ")?;
    put_escaped(out, name)?;
    put_bytes(out, b"\n")
}

/// Puts the lines of tables.
fn put_tables(out: &mut Bytes, tables: &[TableEntry]) -> Result<(), AllocError>
    ensures ok { OnOk result (out.new ≡ out.old ++ flat_map (λ table. ended (table_line table)) tables.now) }
    ensures err { OnErr result (take (length out.old) out.new ≡ out.old) }
{
    for table in tables {
        put_table(out, table)?;
    }
    Ok(())
}

/// Puts the line of an opening that was refused.
fn put_refused(out: &mut Bytes, db: Db, why: &OpenFault) -> Result<(), AllocError>
    requires { IsRefusal why.now }
    ensures ok { OnOk result (out.new ≡ out.old ++ ended (words (codes "refused" ∷ db_text db ∷ refusal_words why.now))) }
    ensures err { OnErr result (take (length out.old) out.new ≡ out.old) }
{
    match db {
        Db::Main => put_bytes(out, b"refused main ")?,
    }
    put_why(out, why)
}

/// Puts why an opening was refused, and the end of the line.
fn put_why(out: &mut Bytes, why: &OpenFault) -> Result<(), AllocError>
    requires { IsRefusal why.now }
    ensures ok { OnOk result (out.new ≡ out.old ++ ended (words (refusal_words why.now))) }
    ensures err { OnErr result (take (length out.old) out.new ≡ out.old) }
{
    match why {
        OpenFault::Header(why) => put_header(out, *why),
        OpenFault::ForeignJournal => put_bytes(out, b"foreign-journal\n"),
        OpenFault::NeedsOther { name } => {
            put_bytes(out, b"needs ")?;
            put_bytes(out, name.bytes())?;
            put_bytes(out, b"\n")
        }
        OpenFault::Failed | OpenFault::Memory | OpenFault::BadPage { .. } => unreachable!(),
    }
}

/// Puts what is wrong with a header, and the end of the line.
fn put_header(out: &mut Bytes, why: HeaderFault) -> Result<(), AllocError>
    ensures ok { OnOk result (out.new ≡ out.old ++ ended (words (header_words why))) }
    ensures err { OnErr result (take (length out.old) out.new ≡ out.old) }
{
    match why {
        HeaderFault::NotADatabase => put_bytes(out, b"not-a-database\n"),
        HeaderFault::PageSize { found } => put_count(out, b"page-size ", u64::from(found)),
        HeaderFault::FileVersion { found } => put_count(out, b"version ", u64::from(found)),
        HeaderFault::Reserved { found } => put_count(out, b"reserved ", u64::from(found)),
        HeaderFault::SchemaFormat { found } => put_count(out, b"schema-format ", u64::from(found)),
        HeaderFault::AutoVacuum => put_bytes(out, b"auto-vacuum\n"),
        HeaderFault::Encoding { found } => put_count(out, b"encoding ", u64::from(found)),
        HeaderFault::TooLarge { bytes } => put_count(out, b"too-large ", bytes),
        HeaderFault::Corrupt => put_bytes(out, b"corrupt\n"),
    }
}

/// The line of a refusal before anything was done.
fn error_text(word: ErrorWord) -> &'static [u8]
    ensures { result.now ≡ ended (words (codes "error" ∷ error_word word ∷ [])) }
{
    match word {
        ErrorWord::BadLine => b"error bad-line\n",
        ErrorWord::NoConn => b"error no-conn\n",
        ErrorWord::InTxn => b"error in-txn\n",
        ErrorWord::NoTxn => b"error no-txn\n",
        ErrorWord::NoTable => b"error no-table\n",
        ErrorWord::Foreign => b"error foreign\n",
        ErrorWord::Exists => b"error exists\n",
        ErrorWord::Columns => b"error columns\n",
        ErrorWord::TooLong => b"error too-long\n",
    }
}
