//! Where the comments of a tree stand.
#![tactic(auto)]

mod children;
mod seating;

pub use seating::{Seat, Seats, seats};
