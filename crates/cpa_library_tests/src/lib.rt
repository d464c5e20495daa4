//! Tests of calls of the library that allocate, each on its good path: sessions that are kept, schedules and chains.
#![tactic(auto)]

#[cfg(test)]
mod kept;
#[cfg(test)]
mod text_commands;
