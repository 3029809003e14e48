//! Tests of the program: its command lines, files, streams, statuses and texts, by tables of runs over memory.
//!
//! They stand in a crate of their own for the gate's time: it proves a crate again with its tests.
#![tactic(auto)]

#[cfg(test)]
mod answers;
#[cfg(test)]
mod fields;
#[cfg(test)]
mod given;
#[cfg(test)]
mod limits;
#[cfg(test)]
mod operator;
#[cfg(test)]
mod refusals;
#[cfg(test)]
mod running;
#[cfg(test)]
mod serve;
#[cfg(test)]
mod shapes;
#[cfg(test)]
mod streams;
#[cfg(test)]
mod table;
#[cfg(test)]
mod taken;
#[cfg(test)]
mod words;
