//! Scripts: what a reader reads of them, what a run tells command by command, and the longest ones.
#![tactic(auto)]

#[cfg(test)]
mod lines;
#[cfg(test)]
mod longest;
#[cfg(test)]
mod offers;
#[cfg(test)]
mod reading;
#[cfg(test)]
mod refusals;
#[cfg(test)]
mod scripts;
