//! Plans, solves and checks of settings: examples of use, and what goes under limits and by measures of any author.
#![tactic(auto)]

#[cfg(test)]
mod calls;
#[cfg(test)]
mod examples;
#[cfg(test)]
mod other_limits;
#[cfg(test)]
mod own;
#[cfg(test)]
mod plan_examples;
#[cfg(test)]
mod plans;
#[cfg(test)]
mod refusals;
#[cfg(test)]
mod solving;
