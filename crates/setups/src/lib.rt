// Setups as lines: read as the scope takes them, and written as the one normal line.
#![tactic(auto)]

mod reads;
mod writes;

pub use reads::read;
pub use writes::{length_of, write};

// What the writer answers: 0 and the bytes written; or 15 and 0.
#[derive(Clone, Copy)]
pub struct Printed {
    pub refusal: u32,
    pub length: u32,
}
