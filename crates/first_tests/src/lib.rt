//! Sources of the first grammar that are read, refused and renamed. They stand in a crate of their
//! own, since a crate with tests is proved with them and without.
#![tactic(auto)]

#[cfg(test)]
mod reading;
#[cfg(test)]
mod renaming;
#[cfg(test)]
mod whole;
