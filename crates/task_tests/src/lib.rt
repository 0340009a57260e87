// Filing, executed: the worked example, each refusal, and both ends of every limit.
#![tactic(auto)]

pub mod deadlines;
#[cfg(test)]
mod edges;
#[cfg(test)]
mod pieces;
#[cfg(test)]
mod ranking;
