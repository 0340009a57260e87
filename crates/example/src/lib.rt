// Tasks given by lists, tasks of equal pieces, and the worked example that the documents, programs and tests speak of.
#![tactic(auto)]

pub mod alike;
pub mod lists;
pub mod worked;
