//! The words of a stack of VFS layers: file names and their kinds, lock levels, owners, layers, and in
//! `specs/` what a file is, what a stop may leave of it and what each call does to it.
//!
//! Nothing here reads or writes a file. Every crate above cites these definitions.
#![tactic(auto)]

mod laws;
mod layer;
mod level;
mod mark;
mod name;
mod pattern;
mod stack;
mod text;

pub use laws::{
    apart_back, both_settle, empty_view, looser_twice, now_is_image, older_images, others_keep,
    separate_apart, settled_stays, sound_above, viewed_apart, viewed_kind, views_compose,
    written_stands,
};
pub use layer::{Group, Groups, Layer};
pub use level::{Fid, Level, Owner};
pub use mark::Placed;
pub use name::{Kind, Name, kind_of};
pub use pattern::Pattern;
pub use stack::{PLACES, Place, permitted, place_for};
