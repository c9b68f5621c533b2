//! The table of points: what the declarations of a run make, in order.
//!
//! A declaration adds its point. That of a subexit whose combined exit is not in the table adds an implicit combined exit just before
//! it. Points have base variables, exits an entry, and children edges to their parents, along which a parent's variables have
//! partners.
#![tactic(auto)]

mod bare;
mod behind;
mod declare;
mod declared;
mod growing;
pub mod laws;
mod limits;
mod links;
mod partners;
mod places;
mod points;
mod roles;
mod sameness;
mod variables;

pub use declared::Declared;
pub use dk_graph::Edge;
pub use limits::{is_int, is_sequence};
pub use partners::{is_orig, plain_name};
pub use points::Points;
pub use roles::{Role, role_of};
pub use variables::orig_name;
