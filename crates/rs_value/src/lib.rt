//! Values, texts and lists: what a table's cells hold.
//!
//! Its promise: a text is always UTF-8; `int_of` and `decimal_of` read exactly the numbers of their definitions; values
//! of one kind are ordered and compared; and want of memory is answered by `Memory`, which is the one free answer.
#![tactic(auto)]

mod kind;
mod list;
mod memory;
mod number;
mod rel;
mod set_op;
mod text;
mod value;

pub use kind::Kind;
pub use list::List;
pub use memory::Memory;
pub use number::{GREATEST_INT, decimal_of, int_of};
pub use rel::Rel;
pub use set_op::SetOp;
pub use text::{Text, TextFault};
pub use value::Value;
