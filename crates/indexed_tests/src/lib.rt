//! Tests of rows with all indexes, changed one slot at a time, for what no contract states.
#![tactic(auto)]

#[cfg(test)]
mod assertions;
#[cfg(test)]
mod changes;
#[cfg(test)]
mod growths;
#[cfg(test)]
mod reads;
#[cfg(test)]
mod samples;
#[cfg(test)]
mod shows;
#[cfg(test)]
mod texts;
