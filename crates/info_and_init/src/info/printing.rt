// What is printed of a run.
ghost use Rattle.std.specs.Prelude.{◌≡◌, ◌≤◌, ◌+◌, ◌∷◌, [], length, map, codes, IfOk, IfSome, option_map};
ghost use Rattle.std.specs.List.{cons_option};
ghost use Rattle.ann_key.specs.KeyRefs.{text_of};
ghost use Rattle.annex_model.specs.Lines.{text};
ghost use Rattle.annex_model.specs.Talks.{said};
ghost use Rattle.wire_msg.specs.Shown.{host_shown};
ghost use Rattle.journal_model.specs.Parts.{part, item_at};
ghost use Rattle.journal_model.specs.Output.{why_words};
ghost use Rattle.journal_scan.specs.Spans.{IsSpan};
ghost use Rattle.task_model.specs.TaskRuns.{refusal_of};
ghost use Rattle.info_and_init.specs.Info.Infos.{questions, lines_of, questions_from, failed_words, gone_lines, unready_lines, child_lines, info_lines};
ghost use Rattle.info_and_init.specs.Info.Tellings.{HasTold, HasPrinted, HasAnswered, mute_lines};

use crate::info::informed::is_final;
use crate::info::questions::questions;
use crate::info::telling::InfoText;
use crate::info::words::{text_at, why_words};
use ann_key::{Bytes, KeyRef, NoMemory};
use journal_look::{
    Journal, Span, has_no_start, is_mute, is_prepared, is_started, said_within, span_of,
    verdict_of, why_of,
};
use journal_model::{Verdict, Why};
use std::alloc::Global;
use wire_msg::HostMsg;

// ---- an answer

fn push_place(
    told: &mut InfoText,
    journal: &Journal,
    span: Option<Span>,
    child: u32,
    job: u64,
    question: &HostMsg<'_>,
    at: u64,
) -> Result<(), NoMemory>
    requires { IfSome span (λ s. IsSpan journal.now.entries child job s) }
    ensures { IfOk result (λ _. HasTold (host_shown question.now) (said (cons_option (item_at journal.now.entries child job at) [])) told.old told.new) }
{
    match said_within(journal, span, child, job, at) {
        Some(line) => told.hear(question, line),
        None => Ok(()),
    }
}

// What the remote said in the job.
fn push_answer(
    told: &mut InfoText,
    journal: &Journal,
    child: u32,
    job: u64,
    question: &HostMsg<'_>,
) -> Result<(), NoMemory>
    ensures { IfOk result (λ _. HasPrinted (lines_of (host_shown question.now) (said (part journal.now.entries child job))) told.old told.new) }
{
    told.begin();
    let span = span_of(journal, child, job);
    for at in 0..journal.len() {
        push_place(told, journal, span, child, job, question, at)?;
    }
    Ok(())
}

// ---- a child that failed

fn push_why(told: &mut InfoText, journal: &Journal, why: Why) -> Result<(), NoMemory>
    ensures { IfOk result (λ _. HasPrinted (why_words journal.now.entries why ∷ []) told.old told.new) }
{
    let words = why_words(journal, why);
    told.push_line(words.fixed, words.told)
}

fn push_unsent(told: &mut InfoText) -> Result<(), NoMemory>
    ensures { IfOk result (λ _. HasPrinted (codes "unsent" ∷ []) told.old told.new) }
{
    told.push_line(b"unsent", b"")
}

// Why a request has no answer.
fn push_failed(told: &mut InfoText, journal: &Journal, verdict: Verdict) -> Result<(), NoMemory>
    ensures { IfOk result (λ _. HasPrinted (failed_words journal.now.entries verdict ∷ []) told.old told.new) }
{
    match verdict {
        Verdict::Ended { why } => push_why(told, journal, why),
        _ => push_unsent(told),
    }
}

fn refusal_of(journal: &Journal, child: u32) -> Option<u64>
    ensures { result ≡ refusal_of journal.now.entries child }
{
    match verdict_of(journal, child, 1) {
        Some(Verdict::Failed { at } | Verdict::Unsupported { at }) => Some(at),
        _ => None,
    }
}

fn push_mute(told: &mut InfoText, journal: &Journal, child: u32) -> Result<(), NoMemory>
    ensures { IfOk result (λ _. HasPrinted (mute_lines journal.now.entries child) told.old told.new) }
{
    if is_mute(journal, child) {
        push_unsent(told)
    } else {
        Ok(())
    }
}

// That the child is gone: its end, or else its mute.
fn push_gone(told: &mut InfoText, journal: &Journal, child: u32) -> Result<(), NoMemory>
    ensures { IfOk result (λ _. HasPrinted (gone_lines journal.now.entries child) told.old told.new) }
{
    match why_of(journal, child) {
        Some(Why::Closed) | None => push_mute(told, journal, child),
        Some(why) => push_why(told, journal, why),
    }
}

// A child that isn't ready.
fn push_unready(told: &mut InfoText, journal: &Journal, child: u32) -> Result<(), NoMemory>
    ensures { IfOk result (λ _. HasPrinted (unready_lines journal.now.entries child) told.old told.new) }
{
    if let Some(at) = refusal_of(journal, child) {
        return told.push_line(b"notprepared ", text_at(journal, at));
    }
    push_gone(told, journal, child)
}

// ---- a child that is ready

// What the job's verdict tells, and whether the next job is told too.
fn push_job(
    told: &mut InfoText,
    journal: &Journal,
    child: u32,
    job: u64,
    question: &HostMsg<'_>,
) -> Result<bool, NoMemory>
    ensures { IfOk result (λ more. HasAnswered journal.now.entries child (host_shown question.now) job more told.old told.new) }
{
    match verdict_of(journal, child, job) {
        Some(verdict) if is_final(verdict) => {
            push_answer(told, journal, child, job, question)?;
            Ok(true)
        }
        Some(verdict) => {
            push_failed(told, journal, verdict)?;
            Ok(false)
        }
        None => {
            push_gone(told, journal, child)?;
            Ok(false)
        }
    }
}

// The jobs from 2 on. One without an answer is the last that is told.
fn push_questions(
    told: &mut InfoText,
    journal: &Journal,
    child: u32,
    questions: &[HostMsg<'_>],
) -> Result<(), NoMemory>
    requires { length questions.now ≤ 6 }
    ensures { IfOk result (λ _. HasPrinted (questions_from journal.now.entries child (map host_shown questions.now) 2) told.old told.new) }
{
    for (n, question) in questions.iter().enumerate() {
        if !push_job(told, journal, child, n as u64 + 2, question)? {
            return Ok(());
        }
    }
    Ok(())
}

fn push_child(
    alloc: Global,
    told: &mut InfoText,
    journal: &Journal,
    child: u32,
    key: Option<KeyRef<'_>>,
) -> Result<(), NoMemory>
    ensures { IfOk result (λ _. HasPrinted (child_lines journal.now.entries child (option_map text_of key.entry)) told.old told.new) }
{
    if is_prepared(journal, child) {
        let questions = questions(alloc, key)?;
        push_questions(told, journal, child, &questions)
    } else {
        push_unready(told, journal, child)
    }
}

/// What is printed of a run over one child, which was asked about itself, and for the key where one is given.
pub fn print_info(
    alloc: Global,
    journal: &Journal,
    key: Option<KeyRef<'_>>,
) -> Result<Bytes, NoMemory>
    ensures { IfOk result (λ b. b ≡ text (info_lines journal.now.entries (option_map text_of key.entry))) }
{
    let mut told = InfoText::new(alloc);
    if has_no_start(journal) {
        told.push_line(b"startfault", b"")?;
    } else if is_started(journal, 1) {
        push_child(alloc, &mut told, journal, 1, key)?;
    }
    Ok(told.into_bytes())
}
