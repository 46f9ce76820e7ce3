//! What no clause says of disks, stores and commands: worked examples, and that calls succeed.
#![tactic(auto)]

#[cfg(test)]
mod commands;
#[cfg(test)]
mod disks;
#[cfg(test)]
mod emission;
#[cfg(test)]
mod failures;
#[cfg(test)]
mod fixtures;
#[cfg(test)]
mod older;
#[cfg(test)]
mod slots;
#[cfg(test)]
mod stops;
#[cfg(test)]
mod stores;
#[cfg(test)]
mod words;
