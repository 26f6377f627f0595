//! What only clauses read: what a list was made with, what a seat knows, and the marks of its values. No value of these
//! types is read by code.

pub mod founding;
pub mod mark;
pub mod view;
