//! The words of the command line, and the job that they name. This project's own command line.
#![tactic(auto)]

mod commands;
mod fault;
mod given;
mod job;
mod options;
#[cfg(test)]
mod tests;
mod values;
mod word;

pub use commands::job_of;
pub use fault::WordsFault;
pub use job::{Asked, Job};
