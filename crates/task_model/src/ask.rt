// The requests of a task, made, asked and let go. Those of exports follow the task's name.
ghost use Rattle.std.specs.Prelude.{◌≡◌, true, false, IfOk, None, Some};
ghost use Rattle.ann_key.specs.KeyRefs.{text_of};
ghost use Rattle.annex_model.specs.Lines.{has_newline};
ghost use Rattle.annex_model.specs.Messages.{Checkpresent, Remove, Transfer, Checkpresentexport, Removeexport, Renameexport, Transferexport, is_askable, is_sent_key};
ghost use Rattle.annex_model.specs.Turns.{turn_of};
ghost use Rattle.annex_model.specs.declared.turn.Turn.TheVariants.{Later};
ghost use Rattle.journal_model.specs.Projection.{IsNamed};
ghost use Rattle.host_talk.specs.Request.Requests.{message_of, name_of};
ghost use Rattle.task_model.specs.Askers.{AskAdds, IsSameTask, is_said_in_line, names_in_line};
ghost use Rattle.task_model.specs.Ran.{is_verdict_of};

use crate::Asker;
use ann_key::{Key, KeyRef, NoMemory, Text};
use host_talk::request::Request;
use journal_model::Verdict;
use std::alloc::Global;

// Asks the request, and lets it go: in one place, since what lets it go goes by its kinds.
fn ask_own<A: Asker>(
    alloc: Global,
    asker: &mut A,
    number: u32,
    request: Request,
) -> Result<Verdict, NoMemory>
    requires task { number ≡ (A.told asker.old).task }
    requires ready { A.ready asker.old }
    requires turn { turn_of (message_of request) ≡ Later }
    requires fields { is_askable (message_of request) ≡ true }
    requires file { names_in_line (message_of request) ≡ true }
    requires name { is_said_in_line (name_of request) ≡ true }
    ensures pairs { AskAdds (A.told asker.old).pairs (A.told asker.new).pairs (name_of request) (message_of request) result }
    ensures named { IfOk result (IsNamed (message_of request)) }
    ensures notes { (A.told asker.new).notes ≡ (A.told asker.old).notes }
    ensures layouts { (A.told asker.new).current ≡ (A.told asker.old).current }
    ensures same { IsSameTask (A.told asker.old) (A.told asker.new) }
    ensures on { A.goes_on asker.old asker.new }
{
    let verdict = asker.ask(alloc, number, &request);
    drop(request);
    verdict
}

/// Whether the key is there.
pub fn present<A: Asker>(
    alloc: Global,
    asker: &mut A,
    number: u32,
    key: KeyRef<'_>,
) -> Result<Verdict, NoMemory>
    requires task { number ≡ (A.told asker.old).task }
    requires ready { A.ready asker.old }
    requires key { is_sent_key (text_of key) ≡ true }
    ensures pairs { AskAdds (A.told asker.old).pairs (A.told asker.new).pairs None (Checkpresent (text_of key.entry)) result }
    ensures verdict { IfOk result (λ v. is_verdict_of (Checkpresent (text_of key.entry)) v ≡ true) }
    ensures notes { (A.told asker.new).notes ≡ (A.told asker.old).notes }
    ensures layouts { (A.told asker.new).current ≡ (A.told asker.old).current }
    ensures same { IsSameTask (A.told asker.old) (A.told asker.new) }
    ensures on { A.goes_on asker.old asker.new }
{
    let key = Key::copy(alloc, key)?;
    ask_own(alloc, asker, number, Request::CheckPresent { key })
}

/// That the key be removed.
pub fn remove<A: Asker>(
    alloc: Global,
    asker: &mut A,
    number: u32,
    key: KeyRef<'_>,
) -> Result<Verdict, NoMemory>
    requires task { number ≡ (A.told asker.old).task }
    requires ready { A.ready asker.old }
    requires key { is_sent_key (text_of key) ≡ true }
    ensures pairs { AskAdds (A.told asker.old).pairs (A.told asker.new).pairs None (Remove (text_of key.entry)) result }
    ensures verdict { IfOk result (λ v. is_verdict_of (Remove (text_of key.entry)) v ≡ true) }
    ensures notes { (A.told asker.new).notes ≡ (A.told asker.old).notes }
    ensures layouts { (A.told asker.new).current ≡ (A.told asker.old).current }
    ensures same { IsSameTask (A.told asker.old) (A.told asker.new) }
    ensures on { A.goes_on asker.old asker.new }
{
    let key = Key::copy(alloc, key)?;
    ask_own(alloc, asker, number, Request::Remove { key })
}

/// That the file be stored as the key, or the key fetched into the file.
pub fn transfer<A: Asker>(
    alloc: Global,
    asker: &mut A,
    number: u32,
    store: bool,
    key: KeyRef<'_>,
    file: &str,
) -> Result<Verdict, NoMemory>
    requires task { number ≡ (A.told asker.old).task }
    requires ready { A.ready asker.old }
    requires key { is_sent_key (text_of key) ≡ true }
    requires file { has_newline file.now ≡ false }
    ensures pairs { AskAdds (A.told asker.old).pairs (A.told asker.new).pairs None (Transfer store (text_of key.entry) file.now) result }
    ensures verdict { IfOk result (λ v. is_verdict_of (Transfer store (text_of key.entry) file.now) v ≡ true) }
    ensures notes { (A.told asker.new).notes ≡ (A.told asker.old).notes }
    ensures layouts { (A.told asker.new).current ≡ (A.told asker.old).current }
    ensures same { IsSameTask (A.told asker.old) (A.told asker.new) }
    ensures on { A.goes_on asker.old asker.new }
{
    let key = Key::copy(alloc, key)?;
    let file = Text::copy(alloc, file)?;
    ask_own(alloc, asker, number, Request::Transfer { store, key, file })
}

/// Whether the key is there under the name.
pub fn present_named<A: Asker>(
    alloc: Global,
    asker: &mut A,
    number: u32,
    key: KeyRef<'_>,
    name: &str,
) -> Result<Verdict, NoMemory>
    requires task { number ≡ (A.told asker.old).task }
    requires ready { A.ready asker.old }
    requires key { is_sent_key (text_of key) ≡ true }
    requires name { has_newline name.now ≡ false }
    ensures pairs { AskAdds (A.told asker.old).pairs (A.told asker.new).pairs (Some name.now) (Checkpresentexport (text_of key.entry)) result }
    ensures verdict { IfOk result (λ v. is_verdict_of (Checkpresentexport (text_of key.entry)) v ≡ true) }
    ensures notes { (A.told asker.new).notes ≡ (A.told asker.old).notes }
    ensures layouts { (A.told asker.new).current ≡ (A.told asker.old).current }
    ensures same { IsSameTask (A.told asker.old) (A.told asker.new) }
    ensures on { A.goes_on asker.old asker.new }
{
    let key = Key::copy(alloc, key)?;
    let name = Text::copy(alloc, name)?;
    ask_own(alloc, asker, number, Request::CheckExport { key, name })
}

/// That what is there under the name, which is the key, be removed.
pub fn remove_named<A: Asker>(
    alloc: Global,
    asker: &mut A,
    number: u32,
    key: KeyRef<'_>,
    name: &str,
) -> Result<Verdict, NoMemory>
    requires task { number ≡ (A.told asker.old).task }
    requires ready { A.ready asker.old }
    requires key { is_sent_key (text_of key) ≡ true }
    requires name { has_newline name.now ≡ false }
    ensures pairs { AskAdds (A.told asker.old).pairs (A.told asker.new).pairs (Some name.now) (Removeexport (text_of key.entry)) result }
    ensures verdict { IfOk result (λ v. is_verdict_of (Removeexport (text_of key.entry)) v ≡ true) }
    ensures notes { (A.told asker.new).notes ≡ (A.told asker.old).notes }
    ensures layouts { (A.told asker.new).current ≡ (A.told asker.old).current }
    ensures same { IsSameTask (A.told asker.old) (A.told asker.new) }
    ensures on { A.goes_on asker.old asker.new }
{
    let key = Key::copy(alloc, key)?;
    let name = Text::copy(alloc, name)?;
    ask_own(alloc, asker, number, Request::RemoveExport { key, name })
}

/// That what is there under the name, which is the key, get another name.
pub fn rename_named<A: Asker>(
    alloc: Global,
    asker: &mut A,
    number: u32,
    key: KeyRef<'_>,
    name: &str,
    onto: &str,
) -> Result<Verdict, NoMemory>
    requires task { number ≡ (A.told asker.old).task }
    requires ready { A.ready asker.old }
    requires key { is_sent_key (text_of key) ≡ true }
    requires name { has_newline name.now ≡ false }
    requires onto { has_newline onto.now ≡ false }
    ensures pairs { AskAdds (A.told asker.old).pairs (A.told asker.new).pairs (Some name.now) (Renameexport (text_of key.entry) onto.now) result }
    ensures verdict { IfOk result (λ v. is_verdict_of (Renameexport (text_of key.entry) onto.now) v ≡ true) }
    ensures notes { (A.told asker.new).notes ≡ (A.told asker.old).notes }
    ensures layouts { (A.told asker.new).current ≡ (A.told asker.old).current }
    ensures same { IsSameTask (A.told asker.old) (A.told asker.new) }
    ensures on { A.goes_on asker.old asker.new }
{
    let key = Key::copy(alloc, key)?;
    let name = Text::copy(alloc, name)?;
    let onto = Text::copy(alloc, onto)?;
    ask_own(
        alloc,
        asker,
        number,
        Request::RenameExport { key, name, onto },
    )
}

/// That the file be stored as the key under the name, or what is there under it fetched into the file.
pub fn transfer_named<A: Asker>(
    alloc: Global,
    asker: &mut A,
    number: u32,
    store: bool,
    key: KeyRef<'_>,
    file: &str,
    name: &str,
) -> Result<Verdict, NoMemory>
    requires task { number ≡ (A.told asker.old).task }
    requires ready { A.ready asker.old }
    requires key { is_sent_key (text_of key) ≡ true }
    requires file { has_newline file.now ≡ false }
    requires name { has_newline name.now ≡ false }
    ensures pairs { AskAdds (A.told asker.old).pairs (A.told asker.new).pairs (Some name.now) (Transferexport store (text_of key.entry) file.now) result }
    ensures verdict { IfOk result (λ v. is_verdict_of (Transferexport store (text_of key.entry) file.now) v ≡ true) }
    ensures notes { (A.told asker.new).notes ≡ (A.told asker.old).notes }
    ensures layouts { (A.told asker.new).current ≡ (A.told asker.old).current }
    ensures same { IsSameTask (A.told asker.old) (A.told asker.new) }
    ensures on { A.goes_on asker.old asker.new }
{
    let key = Key::copy(alloc, key)?;
    let file = Text::copy(alloc, file)?;
    let name = Text::copy(alloc, name)?;
    ask_own(
        alloc,
        asker,
        number,
        Request::TransferExport {
            store,
            key,
            file,
            name,
        },
    )
}
