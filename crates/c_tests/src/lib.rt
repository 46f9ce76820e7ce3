//! What no clause says of C texts: programs, and the tokens at which texts are refused.
#![tactic(auto)]

#[cfg(test)]
mod programs;
