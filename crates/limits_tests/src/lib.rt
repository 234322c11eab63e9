//! Layers on limits of any kind, and the comparisons of the measures.
#![tactic(auto)]

#[cfg(test)]
mod layers;
#[cfg(test)]
mod measures;
