//! What the host answers, over a source that is read and loaded: a row of a table for each fault,
//! field and method.
#![tactic(auto)]

#[cfg(test)]
mod asking;
#[cfg(test)]
mod tests;
#[cfg(test)]
mod values;
