// The lines of a journal in one store, and the numbers of a child's jobs.
mod store;
mod window;

pub use store::LineStore;
pub use window::Window;
