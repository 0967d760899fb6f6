// How content is cut into chunks.
mod laws;
mod plan;

pub use plan::{count, held, piece, range};
