// An entry that is lent.
ghost use Rattle.std.specs.Prelude.{◌≡◌};
ghost use Rattle.journal_scan.specs.Shown.{what_shown, entry_shown};

use journal_model::{Answer, Entry, Verdict, What, Why};

/// What happened, as in `What`, where a line is lent.
#[derive(Clone, Copy)]
pub enum WhatRef<'a> {
    Claim {
        task: u32,
        child: u32,
    },
    Start {
        child: u32,
        slot: u32,
        offer: bool,
    },
    NoStart {
        slot: u32,
    },
    Lead {
        child: u32,
        job: u64,
        line: &'a [u8],
    },
    Ask {
        child: u32,
        job: u64,
        task: u32,
        line: &'a [u8],
    },
    Put {
        child: u32,
        job: u64,
        line: &'a [u8],
    },
    Sent {
        child: u32,
    },
    Mute {
        child: u32,
    },
    Got {
        child: u32,
        line: &'a [u8],
    },
    End {
        child: u32,
        why: Why,
    },
    Verdict {
        child: u32,
        job: u64,
        verdict: Verdict,
    },
    Lost {
        child: u32,
        task: u32,
    },
    Answer {
        task: u32,
        answer: Answer,
    },
    Note {
        task: u32,
        chunk: u64,
        count: u64,
    },
    Again {
        task: u32,
        answer: Answer,
    },
}

/// An entry, and the number of the pass that made it, as in `Entry`, where a line is lent.
#[derive(Clone, Copy)]
pub struct EntryRef<'a> {
    pub by: u32,
    pub what: WhatRef<'a>,
}

impl<'a> WhatRef<'a> {
    /// What happened, lent. It takes no memory.
    pub fn of(what: &'a What) -> WhatRef<'a>
        ensures { what_shown result ≡ what.entry.now }
    {
        match what {
            What::Claim { task, child } => WhatRef::Claim {
                task: *task,
                child: *child,
            },
            What::Start { child, slot, offer } => WhatRef::Start {
                child: *child,
                slot: *slot,
                offer: *offer,
            },
            What::NoStart { slot } => WhatRef::NoStart { slot: *slot },
            What::Lead { child, job, line } => WhatRef::Lead {
                child: *child,
                job: *job,
                line: line.view(),
            },
            What::Ask {
                child,
                job,
                task,
                line,
            } => WhatRef::Ask {
                child: *child,
                job: *job,
                task: *task,
                line: line.view(),
            },
            What::Put { child, job, line } => WhatRef::Put {
                child: *child,
                job: *job,
                line: line.view(),
            },
            What::Sent { child } => WhatRef::Sent { child: *child },
            What::Mute { child } => WhatRef::Mute { child: *child },
            What::Got { child, line } => WhatRef::Got {
                child: *child,
                line: line.view(),
            },
            What::End { child, why } => WhatRef::End {
                child: *child,
                why: *why,
            },
            What::Verdict {
                child,
                job,
                verdict,
            } => WhatRef::Verdict {
                child: *child,
                job: *job,
                verdict: *verdict,
            },
            What::Lost { child, task } => WhatRef::Lost {
                child: *child,
                task: *task,
            },
            What::Answer { task, answer } => WhatRef::Answer {
                task: *task,
                answer: *answer,
            },
            What::Note { task, chunk, count } => WhatRef::Note {
                task: *task,
                chunk: *chunk,
                count: *count,
            },
            What::Again { task, answer } => WhatRef::Again {
                task: *task,
                answer: *answer,
            },
        }
    }
}

impl<'a> EntryRef<'a> {
    /// The entry, lent. It takes no memory.
    pub fn of(entry: &'a Entry) -> EntryRef<'a>
        ensures { entry_shown result ≡ entry.entry.now }
    {
        EntryRef {
            by: entry.by,
            what: WhatRef::of(&entry.what),
        }
    }
}
