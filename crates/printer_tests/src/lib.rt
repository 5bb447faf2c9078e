//! Texts that are made of trees: spaces between them, sources that are read, printed whole and read
//! again as the same trees, and sources whose made text is known.
#![tactic(auto)]

#[cfg(test)]
mod joins;
#[cfg(test)]
mod tests;
