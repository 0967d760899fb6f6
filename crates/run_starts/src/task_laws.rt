// What follows from Task run: which answers come where all went well from outside, and what a get leaves in its file.
pub mod files_kept;
pub mod kept;
pub mod retrieval;
pub mod rows;
pub mod run_well;
pub mod sent;
pub mod went_well;
