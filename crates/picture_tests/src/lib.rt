//! Tests of diagrams, their layout and their drawings.
#![tactic(auto)]

#[cfg(test)]
mod building;
#[cfg(test)]
mod drawings;
#[cfg(test)]
mod layouts;
#[cfg(test)]
mod runs;
