//! The bytes of a database file in SQLite's format: list types, the numbers and records that its pages
//! are made of, the header of the file, and the texts of plain tables.
//!
//! After sqlite.org, "Database File Format".
#![tactic(auto)]

mod create;
mod fault;
mod header;
mod plain;
mod record;
mod report;
mod spill;
mod table_list;
mod value;
mod varint;

pub use byte_base::{ByteLists, Bytes};
pub use create::{Create, are_columns, is_identifier, one_create, read_create, write_create};
pub use fault::{FormatFault, SpaceFault};
pub use header::{
    GREATEST_LENGTH, Header, HeaderFault, accepted_fits, header_in_front, is_page_size, new_header,
    read_header, write_header,
};
pub use plain::{PlainList, PlainTable, plain_table, plain_tables};
pub use record::{one_record, read_record, write_record};
pub use report::{Report, Why};
pub use spill::local_size;
pub use table_list::{TableEntry, TableList};
pub use value::{Record, Value};
pub use varint::{one_spelling, one_varint, put_varint, read_varint};
