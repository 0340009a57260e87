// Platforms: what works the pieces of a task tick by tick. The trait says by a meaning what every platform is; the one that we ship ends its pieces at true times.
#![tactic(auto)]

mod held;
pub mod platforms;
pub mod refusals;
pub mod scripts;
pub mod timed;
