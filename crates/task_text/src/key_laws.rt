// What is said of one text: its readers have one answer. Each law is the contract of a function with nothing to do.
pub mod laws;
