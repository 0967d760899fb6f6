// What a desk's files hold after a task's calls. Each law is the contract of a function with nothing to do.
ghost use Rattle.run_starts.specs.TaskLaws.FilesKept.{GotHolds, LeftShows, NoPartIsAfresh};

/// A get that is answered Got leaves in its file what it checked, which fits the key, whatever was there before.
pub fn got_holds()
    ensures { GotHolds }
{}

/// Calls that leave a file as it is show what it held before them.
pub fn left_shows()
    ensures { LeftShows }
{}

/// A get that is answered Got, and had no part till its last layout, began afresh.
pub fn no_part_is_afresh()
    ensures { NoPartIsAfresh }
{}
