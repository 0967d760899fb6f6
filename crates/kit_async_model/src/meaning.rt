// What a legal journal of a kit that serves several jobs at once means for each job. No code runs here.
pub mod laws;
