// The end of every command: the one place that knows which text goes where, with which status.
ghost use Rattle.std.specs.Prelude.{◌≡◌, ◌≤◌, ◌++◌, ◌∷◌, [], codes, decimal, true, length, IfOk, option_map};
ghost use Rattle.std.specs.List.{list_all};
ghost use Rattle.ann_key.specs.KeyRefs.{text_of};
ghost use Rattle.info_and_init.specs.Init.Setups.{setup_text};
ghost use Rattle.info_and_init.specs.declared.init.setup.Setup.TheVariants.{Stopped};
ghost use Rattle.special_cli.specs.Audits.{found_line, found_status};
ghost use Rattle.special_cli.specs.Endings.{is_well};
ghost use Rattle.special_cli.specs.Informs.{info_status};
ghost use Rattle.special_cli.specs.Recoveries.{HasFew, is_well_so_far, recovered_line, recovered_lines, recovered_status};
ghost use Rattle.special_cli.specs.Sayings.{Says, SaysEnd};
ghost use Rattle.special_cli.specs.declared.end.End.TheVariants.{Informed};
ghost use Rattle.special_cli.specs.Tells.{flow, IsDoneTold, IsEndTold, IsRecoveredTold, IsSetUpTold, IsToldOf, answer_lines, answers_status};

use crate::closing::Closing;
use crate::end::End;
use crate::ran::Ran;
use crate::rehearsal::rehearsal_saying;
use crate::saying::{Saying, Words};
use crate::walking::walk_saying;
use ann_key::{Bytes, Key, KeyRef, NoMemory};
use ann_outside::{Desks, Programs, Sink};
use audit_command::recover::KeptEnd;
use cli_words::{
    bad_kept_line, file_line, input_line, keep_changed_line, keep_large_line, refused_line,
    usage_line,
};
use info_and_init::info::{is_informed, print_info};
use journal_audit::Audit;
use journal_look::Journal;
use journal_model::Answer;
use journal_text::answers::{print_answer, print_words};
use kept_file::desk::KeptWritten;
use std::alloc::Global;

/// Tells what came of a command: an answer on `out`, or why there is none on `err`.
pub(crate) fn tell<P: Programs, K: Desks, O: Sink, E: Sink>(
    alloc: Global,
    ran: Ran<P, K>,
    out: &mut O,
    err: &mut E,
) -> Closing<P, K>
    requires open { ((O.told out.old).is_open ≡ true) × ((E.told err.old).is_open ≡ true) }
    requires few { length ran.left.answers ≤ 65536 }
    requires recovered { HasFew ran.end }
    ensures left { result.left ≡ ran.left }
    ensures told { IsToldOf ran.left result.status (flow (O.told out.old) (O.told out.new)) (flow (E.told err.old) (E.told err.new)) ran.end }
{
    let status = say_end(alloc, &ran.end, &ran.journal, &ran.answers, out, err);
    ran.close(status)
}

// Says the end, and gives the status.
fn say_end<O: Sink, E: Sink>(
    alloc: Global,
    end: &End,
    journal: &Journal,
    answers: &[Answer],
    out: &mut O,
    err: &mut E,
) -> u8
    requires open { ((O.told out.old).is_open ≡ true) × ((E.told err.old).is_open ≡ true) }
    requires few { length answers.now ≤ 65536 }
    requires recovered { HasFew end.now }
    ensures { IsEndTold journal.now.entries answers.now result (flow (O.told out.old) (O.told out.new)) (flow (E.told err.old) (E.told err.new)) end.now }
{
    let saying = saying_of(alloc, end, journal, answers);
    saying.say(out, err)
}

// What is said of an end.
fn saying_of(alloc: Global, end: &End, journal: &Journal, answers: &[Answer]) -> Saying
    requires few { length answers.now ≤ 65536 }
    requires recovered { HasFew end.now }
    ensures { SaysEnd journal.now.entries answers.now end.now result }
{
    match end {
        End::Usage => Saying::OnErr(Words::Fixed(usage_line()), 2),
        End::Shown(page) => Saying::OnOut(Words::Fixed(page.text().as_bytes()), 0),
        End::Refused { line, reason } => Saying::on_err(refused_line(alloc, *line, *reason), 3),
        End::Memory => Saying::no_memory(),
        End::Answered => done_saying(alloc, journal, answers, KeptWritten::Done),
        End::Informed(key) => info_saying(alloc, journal, key),
        End::BadKept(line) => Saying::on_err(bad_kept_line(alloc, *line), 6),
        End::KeptTooLarge => Saying::OnErr(Words::Fixed(keep_large_line()), 6),
        End::FileFailed => Saying::OnErr(Words::Fixed(file_line()), 6),
        End::InputFailed => Saying::OnErr(Words::Fixed(input_line()), 4),
        End::SetUp(written) => set_up_saying(*written),
        End::Done(written) => done_saying(alloc, journal, answers, *written),
        End::NotSetUp(answer) => Saying::on_out(print_line(alloc, answer, journal), 1),
        End::Audited(found) => Saying::on_out(found_line(alloc, *found), found_status(*found)),
        End::Rehearsed(found) => rehearsal_saying(alloc, answers, *found),
        End::Walked {
            tasks,
            equal,
            found,
        } => walk_saying(alloc, *tasks, answers, *equal, *found),
        End::Unbegun => Saying::OnOut(Words::Fixed(b""), 0),
        End::Recovered { answers, kept } => recovered_saying(alloc, journal, answers, *kept),
    }
}

// The answers are printed, also where what is known was not kept.
fn done_saying(alloc: Global, journal: &Journal, answers: &[Answer], written: KeptWritten) -> Saying
    requires few { length answers.now ≤ 65536 }
    ensures { Says result (IsDoneTold journal.now.entries answers.now written) }
{
    let lines = print_answers(alloc, journal, answers);
    match written {
        KeptWritten::Done => Saying::on_out(lines, answers_status(answers)),
        KeptWritten::TooLarge => Saying::on_both(lines, keep_large_line(), 6),
        KeptWritten::Fault => Saying::on_both(lines, file_line(), 6),
    }
}

// The lines of the answers of the tasks, in order.
fn print_answers(alloc: Global, journal: &Journal, answers: &[Answer]) -> Result<Bytes, NoMemory>
    requires few { length answers.now ≤ 65536 }
    ensures { IfOk result (λ b. b ≡ answer_lines journal.now.entries 1 answers.now) }
{
    let mut text = Vec::new(alloc);
    for (n, answer) in answers.iter().enumerate() {
        let line = print_answer(alloc, n as u32 + 1, answer, journal)?;
        text.extend_from_slice(line.view())?;
    }
    Ok(Bytes::from_vec(text))
}

fn answers_status(answers: &[Answer]) -> u8
    ensures { result ≡ answers_status answers.now }
{
    if are_well(answers) { 0 } else { 1 }
}

fn are_well(answers: &[Answer]) -> bool
    ensures { result ≡ list_all is_well answers.now }
{
    answers.iter().all(|answer| is_well(*answer))
}

fn is_well(answer: Answer) -> bool
    ensures { result ≡ is_well answer }
{
    match answer {
        Answer::Stored | Answer::Got | Answer::Present | Answer::Dropped | Answer::Renamed => true,
        _ => false,
    }
}

// The answers so far are printed, also where what is known was not kept.
fn recovered_saying(
    alloc: Global,
    journal: &Journal,
    answers: &[Option<Answer>],
    kept: KeptEnd,
) -> Saying
    requires { length answers.now ≤ 65536 }
    ensures { Says result (IsRecoveredTold journal.now.entries answers.now kept) }
{
    let lines = print_recovered(alloc, journal, answers);
    match kept {
        KeptEnd::Written(KeptWritten::Done) => Saying::on_out(lines, recovered_status(answers)),
        KeptEnd::Written(KeptWritten::TooLarge) => Saying::on_both(lines, keep_large_line(), 6),
        KeptEnd::Written(KeptWritten::Fault) | KeptEnd::Fault => {
            Saying::on_both(lines, file_line(), 6)
        }
        KeptEnd::Changed => Saying::on_both(lines, keep_changed_line(), 6),
    }
}

// The lines of the tasks, in order, of which some may have no answer.
fn print_recovered(
    alloc: Global,
    journal: &Journal,
    answers: &[Option<Answer>],
) -> Result<Bytes, NoMemory>
    requires { length answers.now ≤ 65536 }
    ensures { IfOk result (λ b. b ≡ recovered_lines journal.now.entries 1 answers.now) }
{
    let mut text = Vec::new(alloc);
    for (n, answer) in answers.iter().enumerate() {
        let line = recovered_line(alloc, n as u32 + 1, answer, journal)?;
        text.extend_from_slice(line.view())?;
    }
    Ok(Bytes::from_vec(text))
}

fn recovered_line(
    alloc: Global,
    task: u32,
    answer: &Option<Answer>,
    journal: &Journal,
) -> Result<Bytes, NoMemory>
    ensures { IfOk result (λ b. b ≡ recovered_line journal.now.entries task answer.now) }
{
    match answer {
        Some(answer) => print_answer(alloc, task, answer, journal),
        None => open_line(alloc, task),
    }
}

// The line of a task without an answer.
fn open_line(alloc: Global, task: u32) -> Result<Bytes, NoMemory>
    ensures { IfOk result (λ b. b ≡ decimal task ++ (codes " open" ++ 10 ∷ [])) }
{
    let text = format!(in alloc; "{task} open\n")?;
    Ok(Bytes::copy(alloc, text.as_bytes())?)
}

fn recovered_status(answers: &[Option<Answer>]) -> u8
    ensures { result ≡ recovered_status answers.now }
{
    if are_well_so_far(answers) { 0 } else { 1 }
}

fn are_well_so_far(answers: &[Option<Answer>]) -> bool
    ensures { result ≡ list_all is_well_so_far answers.now }
{
    answers.iter().all(|answer| is_well_so_far(*answer))
}

fn is_well_so_far(answer: Option<Answer>) -> bool
    ensures { result ≡ is_well_so_far answer }
{
    match answer {
        Some(answer) => is_well(answer),
        None => false,
    }
}

// The key, lent.
fn lent(key: &Option<Key>) -> Option<KeyRef<'_>>
    ensures { option_map text_of result ≡ key.now }
{
    match key {
        Some(key) => Some(key.view()),
        None => None,
    }
}

fn info_saying(alloc: Global, journal: &Journal, key: &Option<Key>) -> Saying
    ensures { SaysEnd journal.now.entries [] (Informed key.now) result }
{
    let key = lent(key);
    Saying::on_out(print_info(alloc, journal, key), info_status(journal, key))
}

fn info_status(journal: &Journal, key: Option<KeyRef<'_>>) -> u8
    ensures { result ≡ info_status journal.now.entries (option_map text_of key.entry) }
{
    if is_informed(journal, key) { 0 } else { 1 }
}

fn initialized_line() -> &'static [u8]
    ensures { result.now ≡ codes "initialized" ++ 10 ∷ [] }
{
    b"initialized\n"
}

fn set_up_saying(written: KeptWritten) -> Saying
    ensures { Says result (IsSetUpTold written) }
{
    let line = Words::Fixed(initialized_line());
    match written {
        KeptWritten::Done => Saying::OnOut(line, 0),
        KeptWritten::TooLarge => Saying::OnBoth(line, keep_large_line(), 6),
        KeptWritten::Fault => Saying::OnBoth(line, file_line(), 6),
    }
}

// The words of the answer, as a line.
fn print_line(alloc: Global, answer: &Answer, journal: &Journal) -> Result<Bytes, NoMemory>
    ensures { IfOk result (λ b. b ≡ setup_text journal.now.entries (Stopped answer.now)) }
{
    let mut text = print_words(alloc, answer, journal)?.into_vec();
    text.push(b'\n')?;
    Ok(Bytes::from_vec(text))
}

/// What was found of a journal, as a line.
pub(crate) fn found_line(alloc: Global, found: Audit) -> Result<Bytes, NoMemory>
    ensures { IfOk result (λ line. line ≡ found_line found) }
{
    match found {
        Audit::Legal => Ok(Bytes::copy(alloc, b"legal\n")?),
        Audit::Wrong { entry, kind } => {
            let text = format!(in alloc; "wrong {entry} {kind}\n")?;
            Ok(Bytes::copy(alloc, text.as_bytes())?)
        }
    }
}

/// The status that goes with it.
pub(crate) fn found_status(found: Audit) -> u8
    ensures { result ≡ found_status found }
{
    match found {
        Audit::Legal => 0,
        Audit::Wrong { .. } => 1,
    }
}
