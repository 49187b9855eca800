//! Scripts that are made of a number, each with a text from which the reader reads it.
#![tactic(auto)]

mod made;
mod text;

pub use made::{MadeScript, made_text};
