//! Runs whose source, sink or keeper fails, as tests over the top calls. What scripts print stands in tests/ at the top.
#![tactic(auto)]

#[cfg(test)]
mod cells;
#[cfg(test)]
mod runs;
#[cfg(test)]
mod servers;
#[cfg(test)]
mod trial;
