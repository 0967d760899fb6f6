// A round over a pool: each child has a worker of its own, which is dealt a pass of a hall over the core, the child's link and a
// desk. The workers run in threads and are taken back when the round is over.
mod dealt;
mod played;
mod pool;

pub use pool::{PoolRound, round_pool, round_pool_some};
