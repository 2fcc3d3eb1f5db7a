//! The values of a message's fields, as rows and lines show them, by what is found out once for many messages.
#![tactic(auto)]

mod form;
mod frames;
mod items;
mod pen;
mod shown;

pub use frames::{Frame, put_tail, put_two};
pub use items::ItemBytes;
pub use pen::Pen;
pub use shown::ShownCell;
