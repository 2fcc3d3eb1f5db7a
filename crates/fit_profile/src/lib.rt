//! What a data message means by the records before it: its times, accumulated values, and the names and units of its
//! developer fields. What the profile says without records is of `fit_names`, and is passed on here.
#![tactic(auto)]

mod by_bytes;
mod by_header;
mod by_plan;
mod component;
mod counter_places;
pub mod laws;
mod learn;
mod least;
mod look;
mod message;
mod message_bytes;
mod names;
mod places;
mod plan;
mod stream;
mod text;
mod time;
mod told;

pub use fit_names::{
    Info, field_info, field_label, field_number, fixed, message_label, message_name,
    message_number, value_of,
};
pub use fit_numbers::{
    Fixed, Label, decimals_of, degrees, factor_of, put_fixed, put_whole, shift, utc_text,
    write_fixed,
};
pub use message::{FieldView, Message};
pub use message_bytes::{Taken, Tells};
pub use stream::Stream;
pub use text::text_len;
pub use told::Told;
