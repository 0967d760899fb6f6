// What is written after the tasks.
ghost use Rattle.std.specs.Prelude.{◌≡◌};
ghost use Rattle.ann_outside.specs.TextFile.Names.{NamesOnly};
ghost use Rattle.run_answers.specs.Answering.{AreAllAnswered};
ghost use Rattle.run_and_check.specs.Run.Runs.{IsJournaled, IsRunFile, told_of};
ghost use Rattle.run_and_check.specs.Run.Workings.{Finishes, Keeps, Writes};

use crate::run::made::RunEnd;
use ann_key::NoMemory;
use ann_outside::Desk;
use cli_words::RunWords;
use host_core::Core;
use journal_model::Answer;
use journal_text::file::{JournalWritten, write_journal};
use kept_file::desk::{KeptWritten, write_kept};
use run_answers::answers_of;
use std::alloc::Global;

/// The answers of a run, and how it ended.
#[derive(Drop)]
pub(crate) struct Finished {
    pub(crate) answers: Vec<Answer>,
    pub(crate) end: RunEnd,
}

// Puts the config that the run began with, the other registers after the journal and the notes after it in the place of the
// kept file, where the words name one.
#[tactic(auto, using(crate::proofs::RunLemmas::Naming::kept_names, ann_outside::proofs::TextFileLemmas::Naming::names_none))]
fn keep<D: Desk>(
    alloc: Global,
    words: &RunWords,
    desk: &mut D,
    core: &Core,
) -> Result<KeptWritten, NoMemory>
    ensures keeps { Keeps words.now (D.told desk.old).files (D.told desk.new) core.now.opening core.now.journal result }
    ensures calls { NamesOnly (IsRunFile words.now) (D.told desk.old).log (D.told desk.new).log }
{
    match &words.keep {
        Some(name) => write_kept(
            alloc,
            desk,
            name.view(),
            &core.opening().registers,
            core.registers(),
            core.notes(),
        ),
        None => Ok(KeptWritten::Done),
    }
}

// Writes the text of the run into the journal file, where the words name one.
#[tactic(auto, using(crate::proofs::RunLemmas::Naming::journal_names, ann_outside::proofs::TextFileLemmas::Naming::names_none))]
fn write_text<D: Desk>(
    alloc: Global,
    words: &RunWords,
    desk: &mut D,
    core: &Core,
) -> Result<JournalWritten, NoMemory>
    ensures journaled { IsJournaled words.now (D.told desk.old) (D.told desk.new) core.now.opening core.now.journal result }
    ensures calls { NamesOnly (IsRunFile words.now) (D.told desk.old).log (D.told desk.new).log }
{
    match &words.journal {
        Some(name) => write_journal(alloc, desk, name.view(), core.opening(), core.journal()),
        None => Ok(JournalWritten::Done),
    }
}

// What is told of both files.
fn told_of(kept: KeptWritten, journal: JournalWritten) -> KeptWritten
    ensures { result ≡ told_of kept journal }
{
    match (kept, journal) {
        (KeptWritten::Done, JournalWritten::Fault) => KeptWritten::Fault,
        (kept, _) => kept,
    }
}

// Writes the kept file, and then the journal file, also where the kept file could not be written.
#[tactic(auto, using(ann_outside::proofs::TextFileLemmas::Naming::names_both))]
fn write_both<D: Desk>(
    alloc: Global,
    words: &RunWords,
    desk: &mut D,
    core: &Core,
) -> Result<KeptWritten, NoMemory>
    ensures writes { Writes words.now (D.told desk.old).files (D.told desk.new) core.now.opening core.now.journal result }
    ensures calls { NamesOnly (IsRunFile words.now) (D.told desk.old).log (D.told desk.new).log }
{
    let kept = keep(alloc, words, desk, core)?;
    let journal = write_text(alloc, words, desk, core)?;
    Ok(told_of(kept, journal))
}

/// Takes the answers of all tasks from the journal, and writes the kept file and the journal file.
#[tactic(auto, using(ann_outside::proofs::TextFileLemmas::Naming::names_none))]
pub(crate) fn finish<D: Desk>(
    alloc: Global,
    words: &RunWords,
    desk: &mut D,
    core: &Core,
) -> Finished
    requires { AreAllAnswered core.now.opening core.now.journal }
    ensures finishes { Finishes words.now (D.told desk.old).files (D.told desk.new) core.now.opening core.now.journal result.answers.items result.end }
    ensures calls { NamesOnly (IsRunFile words.now) (D.told desk.old).log (D.told desk.new).log }
{
    let Ok(answers) = answers_of(alloc, core) else {
        return Finished {
            answers: Vec::new(alloc),
            end: RunEnd::Memory,
        };
    };
    match write_both(alloc, words, desk, core) {
        Ok(written) => Finished {
            answers,
            end: RunEnd::Done(written),
        },
        Err(NoMemory) => Finished {
            answers: Vec::new(alloc),
            end: RunEnd::Memory,
        },
    }
}
