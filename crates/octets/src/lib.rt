//! Octets: their classes, digits of base 16, strings of them, and the ends of lines.
#![tactic(auto)]

mod class;
mod hex;
mod line;
mod string;

pub use class::{
    begins_name, is_blank, is_digit, is_name_octet, is_printable, is_visible, is_white,
};
pub use hex::{hex_digit, hex_octet};
pub use line::without_return;
pub use string::{Octets, SmallOctets};
