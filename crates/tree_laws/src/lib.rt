//! Laws of whole pages that change: page 1 gets another freelist, pages are taken and given, roots come and go. They say
//! what stays whole, from the definitions of `tree_model` alone.
#![tactic(auto)]

mod front;
mod replace;
mod whole;

pub use front::{front_kept, header_size, header_stays, whole_front};
pub use replace::{deep_is_large, top_moved, tree_replaced, use_within_need, widens};
pub use whole::{pages_add_up, root_removed, whole_gives, whole_takes};
