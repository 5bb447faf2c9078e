//! Whole runs of the session over files in memory, and the calls of the session alone: stores, the
//! words of a line and the source of sample mode. They stand in a crate of their own, since a crate
//! with tests is proved with them and without.
#![tactic(auto)]

#[cfg(test)]
mod changes;
#[cfg(test)]
mod layouts;
#[cfg(test)]
mod runs;
#[cfg(test)]
mod sample;
#[cfg(test)]
mod stores;
#[cfg(test)]
mod tables;
#[cfg(test)]
mod words;
