use ann_key::Bytes;
use host_talk::request::Request;
use journal_model::{Answer, Verdict, Why};
use task_text::chunk_log::Layouts;

/// What is asked of the core, or told to it.
#[derive(Drop)]
pub enum Event {
    /// A task to do over this child, or over none where it is 0.
    Claim {
        child: u32,
    },
    /// A child was started in that slot, and ASYNC is to be offered to it or not.
    Start {
        slot: u32,
        offer: bool,
    },
    /// No child could be started in that slot.
    NoStart {
        slot: u32,
    },
    /// A request of the task, or of the greeting where that is 0.
    Ask {
        child: u32,
        task: u32,
        request: Request,
    },
    /// How the job stands.
    Lookup {
        child: u32,
        job: u64,
    },
    /// How the child stands.
    Look {
        child: u32,
    },
    /// Whether the child's output is to be read.
    Listen {
        child: u32,
    },
    /// The next line for the child that was not written whole.
    Fetch {
        child: u32,
    },
    /// The child said a line, here without its byte 10.
    Got {
        child: u32,
        line: Bytes,
    },
    /// The child is at its end.
    Stop {
        child: u32,
        why: Why,
    },
    /// The next line for the child was written whole.
    Sent {
        child: u32,
    },
    /// Writing to the child failed.
    Mute {
        child: u32,
    },
    /// The answer of a task, or that it is run again in its place, where it may be.
    Answer {
        task: u32,
        answer: Answer,
    },
    /// From now on the remote has so many chunks of that size of the task's content.
    Note {
        task: u32,
        chunk: u64,
        count: u64,
    },
    /// The layouts in which the remote is known to have the task's content.
    Layouts {
        task: u32,
    },
    /// Those that wait for a child are to stop, or to go on. The main thread may tell it.
    Shut {
        on: bool,
    },
}

/// What the core answers.
#[derive(Drop)]
pub enum Reply {
    /// This task is claimed, for its first turn or a later one.
    Task { task: u32, turn: u32 },
    /// The child has this number.
    Child(u32),
    /// The request is this job of its child.
    Job(u64),
    /// The job is settled so.
    Verdict(Verdict),
    /// The remote is known to have the content in these layouts.
    Layouts(Layouts),
    /// This line is to be written to the child, with its byte 10.
    Line(Bytes),
    /// The child's output is to be read.
    Read,
    /// The job is open, each task that is left is in the way of a busy one, or no line is to be written.
    Wait,
    /// Each task is claimed.
    NoTask,
    /// The child ended so, or is mute where there is no reason.
    Gone { why: Option<Why> },
    /// The child has ended or is mute, or nothing more will be asked of it: nothing is to be read of it or written to it.
    Over,
    /// It is in the journal, or needn't be.
    Done,
    /// The event may not come here. Nothing has changed.
    Odd,
}
