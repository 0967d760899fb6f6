// Storing content, whole, in chunks or under a name.
mod chunk_store;
mod export_store;
mod store;
mod stores;

pub use chunk_store::store_chunks;
pub use export_store::store_export;
pub use store::store_whole;
