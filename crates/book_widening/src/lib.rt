//! A book of more vertices: the kept paths of another one are copied, with their births and marks.
#![tactic(auto)]

mod widening;

pub use widening::{form_copy, wider_book};
