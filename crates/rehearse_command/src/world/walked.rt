use pair_world::World;

/// What a walk came to.
#[derive(Drop)]
pub struct Walk {
    /// How many answers count for each word, in the order in which a rehearsal prints them.
    pub counts: [u64; 7],
    /// How many tasks got the content of their keys, as their files have it at the end.
    pub equal: u64,
    /// The world at the end.
    pub world: World,
}
