//! The plan of one level of a tree: the new cells of a page, in parts that fit. No page space, and no refusal but want
//! of memory.
#![tactic(auto)]

mod laws;
mod leaf;
mod level;
mod number;

pub use laws::{inner_planned, leaf_planned, path_planned, row_put};
pub use leaf::{LeafPlan, plan_leaf};
pub use level::plan_inner;
pub use number::number_sheets;
