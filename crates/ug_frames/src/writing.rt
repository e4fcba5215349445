//! Messages put into a buffer that has room for them.

pub mod lengths;
pub mod orders;
pub mod parts;
pub mod reports;
