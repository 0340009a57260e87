// The numerator of a filed task on a number of cores: the largest over all complete paths, found in polynomial time.
#![tactic(auto)]

mod finding;
mod interfering;
mod refusals;
mod setting;
mod table;
mod totals;

pub use finding::numerator;
pub use refusals::BoundRefusal;
pub use totals::volume;
