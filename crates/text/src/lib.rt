// Texts in lent buffers: what every writer and reader of a text shares.

#![tactic(auto)]

mod decimal;
pub mod hex;
pub mod parts;
mod putting;
mod reading;

pub use putting::Writer;
pub use reading::{read_decimal, read_field};
