//! Lists and texts that contracts see as plain lists, calls that are to fail, and the words that several crates cite in
//! their contracts.
#![tactic(auto)]

mod failing_calls;
mod items;
mod laws;
mod short_letters;
mod text;

pub use failing_calls::FailingCalls;
pub use items::Items;
pub use laws::{
    a_raised_count_rose, calls_may_be_joined, raises_add_up, rises_are_kept, takings_may_be_joined,
};
pub use text::Text;
