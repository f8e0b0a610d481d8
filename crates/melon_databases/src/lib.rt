//! Tests of the program over databases in memory: what is kept is found again, and what a stop leaves.
#![tactic(auto)]

#[cfg(test)]
mod rows;
#[cfg(test)]
mod runs;
#[cfg(test)]
mod stops;
