// Filing a task: its pieces are entered, then its edges and priorities, and then it is only read.
#![tactic(auto)]

pub mod priorities;
pub mod refusals;
pub mod stages;
