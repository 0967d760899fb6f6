// What a store in chunks sends of its file. Each law is the contract of a function with nothing to do.
ghost use Rattle.run_starts.specs.TaskLaws.Sent.{ChunksAreRanges};

/// A store in chunks stores each chunk from a file that holds the chunk's range of what it stores.
pub fn chunks_are_ranges()
    ensures { ChunksAreRanges }
{}
