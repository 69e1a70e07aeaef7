// What each command is to the books, and what its rule asks of them (PROTOCOL chapter 5).
#![tactic(auto)]

pub mod searches;
pub mod tests;
pub mod views;
