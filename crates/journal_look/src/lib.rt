// A journal that is handed round, and all that is asked of one.
#![tactic(auto)]

mod cursors;
mod dues;
mod held;
mod jobs;
mod journal;
mod life;
mod looks;
mod marks;
mod tables;
mod taken;
mod tasks;

pub use journal::Journal;
pub use journal_scan::conflicts::{may_note, task_of};
pub use journal_scan::lines::is_version_one;
pub use journal_scan::spans::Span;
pub use journal_scan::{EntryRef, WhatRef};
pub use looks::{
    addressed, are_all_claimed, asking_task, due_at, first_due, first_unsent, has_busy_task,
    has_no_open_job, has_no_start, has_open_job, has_spoken, is_all_sent, is_asked, is_claimed_by,
    is_ended, is_full, is_live, is_mute, is_offered, is_open, is_prepared, is_started, is_tagged,
    least_free, line_at, may_ask, next_job, on_wire, open_span, request_text, said_at, said_within,
    span_of, starts_so_far, unclaimed, verdict_of, why_of,
};
