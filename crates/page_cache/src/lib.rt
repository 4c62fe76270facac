//! A cache of clean pages: a bounded number of pages, of which the least recently used makes room.
//!
//! Each page is stored once, and is copied to the caller. The cache knows nothing of files: who uses it drops
//! it when the file has changed.
#![tactic(auto)]

mod cache;

pub use cache::Cache;
