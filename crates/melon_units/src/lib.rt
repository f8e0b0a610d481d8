//! The public calls of the crates below, each called with what the worked rows say of it.
#![tactic(auto)]

#[cfg(test)]
mod backend;
#[cfg(test)]
mod board;
#[cfg(test)]
mod change;
#[cfg(test)]
mod observe;
#[cfg(test)]
mod outside;
#[cfg(test)]
mod query;
#[cfg(test)]
mod queue;
#[cfg(test)]
mod raw;
#[cfg(test)]
mod wire;
