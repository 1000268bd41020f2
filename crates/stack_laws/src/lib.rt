//! What is seen of a stack of requests between two steps, which steps it may take and what each does, and the laws of
//! it. Definitions and laws alone: the view speaks of places, segments and conflicts by functions.
#![tactic(auto)]

pub mod laws;
