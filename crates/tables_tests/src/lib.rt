//! Tests of the rows of all tables under one log, for what no contract states.
#![tactic(auto)]

#[cfg(test)]
mod assertions;
#[cfg(test)]
mod commands;
#[cfg(test)]
mod growths;
#[cfg(test)]
mod plain;
#[cfg(test)]
mod ready;
#[cfg(test)]
mod samples;
#[cfg(test)]
mod transactions;
