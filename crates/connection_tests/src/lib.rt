//! Tests of the handshake, its roles, and the sides of connections.
//!
//! A test is a table of calls and of what they have to answer. Each expectation comes from outside: a
//! worked example, the standard, or another program. A test is a function, so it is proved too, and
//! what that costs are the values that it owns at its ways out: so a row holds plain data, one
//! function makes the call of a row, and a loop goes over the rows.
#![tactic(auto)]

#[cfg(test)]
mod handshakes;
#[cfg(test)]
mod roles;
#[cfg(test)]
mod sides;
#[cfg(test)]
mod streams;
