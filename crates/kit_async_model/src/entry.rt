use ann_key::Bytes;
use kit_serve::kit::Said;

/// What happened in a kit, in the order in which it did. Lines are as they stand on the wire, with their tags and without byte 10.
/// Remotes count from 0. Job 0 is that of a host that doesn't tag its lines.
#[derive(Drop)]
pub enum Entry {
    /// The host said a line.
    Heard { line: Bytes },
    /// The remote takes up the job's request. Nobody else will.
    Take { job: u64, remote: u32 },
    /// The remote was called for the job, and said this.
    Call { job: u64, remote: u32, said: Said },
    /// A line is said to the host.
    Say { job: u64, line: Bytes },
    /// The next of the lines that were said was written whole.
    Wrote,
    /// No more is heard.
    Close,
    /// No memory was found for the line that is due. No more is heard or said.
    Lack,
}
