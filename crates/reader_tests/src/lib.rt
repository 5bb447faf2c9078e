//! The calls of the reader and of what it stands on: kinds, trees, tokens, forms, spelled leaves, and
//! whole sources that are read or refused at a place. They stand in a crate of their own, since a crate
//! with tests is proved with them and without.
#![tactic(auto)]

#[cfg(test)]
mod endings;
#[cfg(test)]
mod forms;
#[cfg(test)]
mod kinds;
#[cfg(test)]
mod leaves;
#[cfg(test)]
mod literals;
#[cfg(test)]
mod parsed;
#[cfg(test)]
mod rows;
#[cfg(test)]
mod seats;
#[cfg(test)]
mod sources;
#[cfg(test)]
mod texts;
#[cfg(test)]
mod tokens;
#[cfg(test)]
mod trees;
