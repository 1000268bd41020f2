//! Records that are what their units answer, where no fault acts and no store call fails.
#![tactic(auto)]

mod law;

pub use law::an_exchange_puts_its_answer;
