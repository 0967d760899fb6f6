use crate::answer::Answer;
use crate::verdict::{Verdict, Why};
use ann_key::Bytes;

/// What happened. Children and tasks count from 1, places, slots and jobs from 0. A line is as it stood on the
/// wire, with its tag and without byte 10.
#[derive(Drop)]
pub enum What {
    /// The task is taken up, to be done by the child, or by none where that is 0.
    Claim {
        task: u32,
        child: u32,
    },
    /// The child was started in that slot, and the extension ASYNC is offered to it or not.
    Start {
        child: u32,
        slot: u32,
        offer: bool,
    },
    /// A child couldn't be started in that slot.
    NoStart {
        slot: u32,
    },
    /// The name of an exported file, which is said before the request of the job that is asked next.
    Lead {
        child: u32,
        job: u64,
        line: Bytes,
    },
    /// The request of a job, for a task, or for the greeting where that is 0.
    Ask {
        child: u32,
        job: u64,
        task: u32,
        line: Bytes,
    },
    /// A reply in a job.
    Put {
        child: u32,
        job: u64,
        line: Bytes,
    },
    /// The next line for the child was written whole.
    Sent {
        child: u32,
    },
    /// Writing to the child failed.
    Mute {
        child: u32,
    },
    /// The child said a line.
    Got {
        child: u32,
        line: Bytes,
    },
    /// The child ended.
    End {
        child: u32,
        why: Why,
    },
    /// The job was settled.
    Verdict {
        child: u32,
        job: u64,
        verdict: Verdict,
    },
    /// A request of the task found the child ended or mute.
    Lost {
        child: u32,
        task: u32,
    },
    /// The task was answered.
    Answer {
        task: u32,
        answer: Answer,
    },
    /// From now on the remote has so many chunks of that size of the task's content, or none where the count is 0.
    Note {
        task: u32,
        chunk: u64,
        count: u64,
    },
    /// The child was lost under the task, as this answer says. The task may be claimed once more.
    Again {
        task: u32,
        answer: Answer,
    },
}

/// An entry of the journal, and the number of the pass that made it; 0 is the main thread between rounds.
#[derive(Drop)]
pub struct Entry {
    pub by: u32,
    pub what: What,
}
