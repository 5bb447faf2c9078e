//! Scripts that are run over a source, with the outcome, the offset of a fault and the fuel left that
//! each has, and with the tree that it leaves. They stand in a crate of their own, since a crate with
//! tests is proved with them and without.
#![tactic(auto)]

#[cfg(test)]
mod tests;
#[cfg(test)]
mod trees;
