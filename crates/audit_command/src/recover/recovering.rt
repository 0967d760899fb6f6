// The command: the text is read, its journal made again, and what is known of it is kept.
ghost use Rattle.std.specs.Prelude.{◌≡◌, ◌≤◌, [], IfOk, map, vec_capacity, vec_len};
ghost use Rattle.ann_outside.specs.TextFile.Names.{NamesOnly};
ghost use Rattle.audit_command.specs.Recoveries.{EndsAnswered, EndsRecovery, EndsRun, HasRecovered, IsKeptFile};
ghost use Rattle.audit_command.specs.declared.recover.made.RecoverEnd.TheVariants.{Memory};
ghost use Rattle.journal_model.specs.Beginnings.{MayBegin};

use crate::recover::keeping::keep;
use crate::recover::made::{RecoverEnd, Recovered};
use crate::recover::text::{TextRead, read_text};
use ann_key::{NoMemory, Text};
use ann_outside::{Desk, Desks};
use host_core::Core;
use journal_audit::{Replayed, make_again};
use journal_look::Journal;
use journal_model::Opening;
use run_answers::answers_in;
use std::alloc::Global;

// What came of a recovery at its desk.
#[derive(Drop)]
struct Done {
    journal: Journal,
    end: RecoverEnd,
}

// Nothing is left but how it ended.
fn nothing_done(alloc: Global, end: RecoverEnd) -> Done
    ensures { (result.journal.entries ≡ []) × (result.end ≡ end) }
{
    Done {
        journal: Journal::new(alloc),
        end,
    }
}

// The answers of the journal, and what is kept after the core's.
fn answered<D: Desk>(
    alloc: Global,
    desk: &mut D,
    kept_name: &Option<Text>,
    journal: Journal,
    core: &Core,
) -> Done
    ensures ends { EndsAnswered kept_name.now (D.told desk.old).files (D.told desk.new) journal.entries core.now result.journal.entries result.end }
    ensures calls { NamesOnly (IsKeptFile kept_name.now) (D.told desk.old).log (D.told desk.new).log }
{
    let tasks = core.opening().tasks.view().len();
    let Ok(answers) = answers_in(alloc, &journal, tasks) else {
        return nothing_done(alloc, RecoverEnd::Memory);
    };
    match keep(alloc, desk, kept_name, core) {
        Ok(kept) => Done {
            journal,
            end: RecoverEnd::Answered { answers, kept },
        },
        Err(NoMemory) => nothing_done(alloc, RecoverEnd::Memory),
    }
}

// What comes of the journal of a run that began so.
fn from_run<D: Desk>(
    alloc: Global,
    desk: &mut D,
    kept_name: &Option<Text>,
    opening: Opening,
    journal: Journal,
) -> Done
    requires begins { MayBegin opening }
    ensures ends { EndsRun kept_name.now (D.told desk.old).files (D.told desk.new) opening journal.entries result.journal.entries result.end }
    ensures calls { NamesOnly (IsKeptFile kept_name.now) (D.told desk.old).log (D.told desk.new).log }
{
    match make_again(alloc, &opening, &journal) {
        Ok(Replayed::Whole(core)) => answered(alloc, desk, kept_name, journal, &core),
        Ok(Replayed::Wrong(misplaced)) => Done {
            journal,
            end: RecoverEnd::Wrong(misplaced),
        },
        Err(NoMemory) => nothing_done(alloc, RecoverEnd::Memory),
    }
}

// What comes of the text, which the reader reads.
fn from_text<D: Desk>(
    alloc: Global,
    reader: &mut D,
    keeper: &mut D,
    text_name: &str,
    kept_name: &Option<Text>,
) -> Done
    ensures ends { EndsRecovery (record { journal = text_name.now; keep = kept_name.now })
        (record { read = (D.told reader.old).files; reader = D.told reader.new; told = (D.told keeper.old).files; keeper = D.told keeper.new })
        result.journal.entries result.end }
    ensures kept { NamesOnly (IsKeptFile kept_name.now) (D.told keeper.old).log (D.told keeper.new).log }
    ensures named { NamesOnly (λ other. other ≡ text_name.now) (D.told reader.old).log (D.told reader.new).log }
    ensures same { (D.told reader.new).files ≡ (D.told reader.old).files }
{
    match read_text(alloc, reader, text_name) {
        Ok(TextRead::SoFar(Some((opening, journal)))) => {
            from_run(alloc, keeper, kept_name, opening, journal)
        }
        Ok(TextRead::SoFar(None)) => nothing_done(alloc, RecoverEnd::Unbegun),
        Ok(TextRead::Refused { line }) => nothing_done(alloc, RecoverEnd::Refused { line }),
        Ok(TextRead::TooLarge) => nothing_done(alloc, RecoverEnd::TextTooLarge),
        Ok(TextRead::Fault) => nothing_done(alloc, RecoverEnd::FileFailed),
        Err(NoMemory) => nothing_done(alloc, RecoverEnd::Memory),
    }
}

fn take_room<K: Desks>(alloc: Global) -> Result<Vec<K::Desk>, NoMemory>
where
    K::Desk: Drop,
    ensures { IfOk result (λ tables. (tables.items ≡ []) × (2 ≤ vec_capacity tables) × (vec_len tables ≡ 0)) }
{
    Ok(Vec::with_capacity(alloc, 2)?)
}

// No memory was found, when no more than these desks was asked for.
fn nothing_made<K: Desks>(alloc: Global, tables: Vec<K::Desk>) -> Recovered<K>
where
    K::Desk: Drop,
    ensures { result ≡ record { journal = []; tables = map (K.Desk.told) tables.items; end = Memory } }
{
    Recovered {
        journal: Journal::new(alloc),
        tables,
        end: RecoverEnd::Memory,
    }
}

/// Recovers what the text of a run says, which may be cut off anywhere. Its journal is made again; what would be due at its end isn't
/// asked for. Where a kept file is named and holds what the run began with, or already what is kept after the journal, that is put in its
/// place. Desk 0 has the kept file, which the real one locks, and desk 1 reads the text.
pub fn recover<K: Desks>(
    alloc: Global,
    text_name: &str,
    kept_name: &Option<Text>,
    desks: &mut K,
) -> Recovered<K>
where
    K::Desk: Drop,
    ensures { HasRecovered (record { journal = text_name.now; keep = kept_name.now }) (K.made desks.old) (K.made desks.new) result }
{
    let Ok(mut tables) = take_room::<K>(alloc) else {
        return nothing_made(alloc, Vec::new(alloc));
    };
    let Ok(mut keeper) = desks.desk(0) else {
        return nothing_made(alloc, tables);
    };
    let Ok(mut reader) = desks.desk(1) else {
        tables.push_reserved(keeper);
        return nothing_made(alloc, tables);
    };
    let done = from_text(alloc, &mut reader, &mut keeper, text_name, kept_name);
    tables.push_reserved(keeper);
    tables.push_reserved(reader);
    Recovered {
        journal: done.journal,
        tables,
        end: done.end,
    }
}
