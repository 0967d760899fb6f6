// Fetching content, over all layouts that are known, or under a name.
mod get_begin;
mod get_chunk;
mod get_layout;
mod get_layouts;
mod get_named;
mod gets;
mod taking;

pub use get_layouts::get_key;
pub use get_named::get_export;
