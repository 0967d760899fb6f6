// Each law is the contract of a function with nothing to do.
ghost use Rattle.remote_dir_bin.specs.Following.{CallsAreOf, StoredIsThere};

/// Each call that a directory remote tells is one of the course that its place and its desk tell of, after the calls before it.
#[allow(dead_code)]
pub fn told_calls_are_done()
    ensures { CallsAreOf }
{}

/// After a store to which it said Yes the content under the key is that of the file.
#[allow(dead_code)]
pub fn stored_is_there()
    ensures { StoredIsThere }
{}
