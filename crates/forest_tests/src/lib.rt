//! The calls of the forest, and whole requests on it over sources that are read and loaded: what paths,
//! builders, scopes and collections answer is told by the addresses of places, and so is which trees
//! sources have.
#![tactic(auto)]

#[cfg(test)]
mod arena;
#[cfg(test)]
mod built;
#[cfg(test)]
mod collected;
#[cfg(test)]
mod paths;
#[cfg(test)]
mod scopes;
#[cfg(test)]
mod tests;
#[cfg(test)]
mod trees;
