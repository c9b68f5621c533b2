//! The forms of states that all rows of the grammar are made of: what is known of a list of values, of one value, and of two lists together.
#![tactic(auto)]

mod code;
mod few;
mod greatest;
pub mod laws;
mod least;
mod modulus;
mod offset;
mod plain;
mod plane;
mod states;
mod truth;

pub use code::{code_all_stay, code_point, code_stays, join_code};
pub use few::Few;
pub use few::ints::{ints_all_stay, ints_point, ints_stays, join_ints};
pub use few::texts::{join_texts, text_point, text_stays, texts_all_stay, texts_point};
pub use greatest::{greatest_all_stay, greatest_point, greatest_stays, join_greatest};
pub use least::{join_least, least_all_stay, least_point, least_stays};
pub use modulus::{join_modulus, modulus_point, modulus_stays};
pub use offset::{join_offset, offset_stays};
pub use plain::{join_plain, plain_point, plain_stays};
pub use plane::line::{join_line, line_point, line_stays};
pub use plane::small::{distance, same_products};
pub use plane::{join_plane, plane_point, plane_stays};
pub use states::State;
pub use truth::{join_truth, truth_all_stay, truth_point, truth_stays};
