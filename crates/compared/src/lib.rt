// Calls for the comparison with the independent reader: what no call in C hands out, a walk with its times and the texts. They are not in the library.
// The crate compared_c exports them.
#![tactic(auto)]

mod texts;
mod walks;

pub use texts::{compared_label, compared_user_text};
pub use walks::{compared_step, compared_steps};
