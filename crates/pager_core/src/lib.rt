//! The pages of a database that is open over a stack, as its connections see them.
#![tactic(auto)]

mod commit;
mod fault;
mod leave;
mod locks;
mod open;
mod pager;
mod read;
mod space;

pub use fault::PagerFault;
pub use open::OpenRule;
pub use page_pool::PageSpace;
pub use pager::Pager;
pub use space::Space;
