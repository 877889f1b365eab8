//! Defines the command lines, and reads what their arguments select.
//!
//! [`job`] reads the arguments of a command line without files, and [`command`] those of the program:
//! a command, and the files that it reads and writes.
#![tactic(auto)]

mod arguments;
mod commands;
mod definition;
mod jobs;
mod reading;

pub use commands::{Command, Golden, Job, Name, Printed, Request, Show, Task, UsageFault};
pub use jobs::job;
pub use reading::command;
