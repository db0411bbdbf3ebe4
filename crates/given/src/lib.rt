// What is given to Count, Move and Present, read and held against the rule set: a term, and an event or a number (document 01,
// "Operations"; refusals 1 to 8, 10 and 11).
#![tactic(auto)]

pub mod asking;
pub mod giving;
