// The bound call, executed: samples, the worked example, both ends of every limit, and tasks as large as they come.
#![tactic(auto)]

#[cfg(test)]
mod asking;
#[cfg(test)]
mod large;
#[cfg(test)]
mod refusals;
#[cfg(test)]
mod samples;
#[cfg(test)]
mod worked;
