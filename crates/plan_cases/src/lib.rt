//! Tests of a draft's limits.

#![tactic(auto)]

#[cfg(test)]
mod limits;
