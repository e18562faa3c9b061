//! Tests of the top calls: scripts and their whole output, over a source, a sink and a clock in memory.
#![tactic(auto)]

#[cfg(test)]
mod tests;
