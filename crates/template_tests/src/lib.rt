//! Tests of the cuts of lines: what the contracts do not say, which lines are cut, and where.
#![tactic(auto)]

#[cfg(test)]
mod cuts;
