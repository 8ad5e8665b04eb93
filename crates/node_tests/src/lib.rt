//! Tests of one node, event by event.
//!
//! A test is a table of events and of what they have to come to. Each expectation comes from outside:
//! a worked example, the standard, or another program. A test is a function, so it is proved too, and
//! what that costs are the values that it owns at its ways out: so a row holds plain data, one
//! function makes the event of a row, and a loop goes over the rows.
#![tactic(auto)]

#[cfg(test)]
mod acting;
#[cfg(test)]
mod comparing;
#[cfg(test)]
mod connections;
#[cfg(test)]
mod names;
#[cfg(test)]
mod processes;
#[cfg(test)]
mod rows;
#[cfg(test)]
mod wire;
