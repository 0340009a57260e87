// The response-time bound of a filed task on a number of cores: five numbers, and the laws that they keep.
#![tactic(auto)]

mod answers;
mod percents;

pub use answers::Bound;
pub use numerator::BoundRefusal;
