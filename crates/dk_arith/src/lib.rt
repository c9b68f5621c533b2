//! Exact arithmetic: greatest common divisors, and sums and products of whole numbers of 64 bits, made at 128 bits so that nothing wraps.
#![tactic(auto)]

mod divisors;
mod exact;
pub mod laws;

pub use divisors::{gcd_of, gcd_wide};
pub use exact::{Direction, area, lowest, minus, value_at, value_in_space};
