// The words of the program: what they ask for, and what is printed without asking anybody.
#![tactic(auto)]

mod command;
mod grammar;
mod identity;
pub mod laws;
mod numbers;
mod pages;
mod reading;
mod refusals;
mod run;
mod settings;
pub mod task_input;
mod texts;
mod uuids;
mod values;

pub use command::{Command, InitWords, Page, RunWords};
pub use identity::nobody;
pub use reading::command_of;
pub use refusals::{Reason, refusal};
pub use settings::{Setting, Settings};
pub use texts::{
    bad_kept_line, file_line, input_line, keep_changed_line, keep_large_line, memory_line,
    refused_line, usage_line,
};
