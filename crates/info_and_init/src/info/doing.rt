// An info: its words' key, what it begins with, and its one child.
ghost use Rattle.std.specs.Prelude.{◌≡◌, ◌≤◌, [], None, Some, IfOk, MatchResult, option_map, vec_capacity};
ghost use Rattle.ann_key.specs.KeyRefs.{text_of};
ghost use Rattle.cli_words.specs.Refusals.{reason_refused, refusal_if};
ghost use Rattle.info_and_init.specs.Info.Informs.{HasInformed, InformsUnless, IsReady, info_opening};
ghost use Rattle.info_and_init.specs.declared.info.made.InfoEnd.TheVariants.{Asked, Memory};

use crate::info::interview::ask_child;
use crate::info::made::{InfoEnd, InfoMade};
use ann_key::{Key, KeyRef, NoMemory, Text};
use ann_outside::Programs;
use child_life::end::journal_of;
use child_link::Wire;
use cli_words::{nobody, refusal};
use host_core::Core;
use journal_look::Journal;
use journal_model::Opening;
use registers::Registers;
use std::alloc::Global;
use task_text::Tasks;
use task_text::chunk_log::NoteBook;

// What an info is made with.
#[derive(Drop)]
struct Ready {
    core: Core,
    key: Option<Key>,
}

// What an info begins with: no task, and no stamp.
fn info_opening(alloc: Global) -> Result<Opening, NoMemory>
    ensures { IfOk result (λ o. o ≡ info_opening) }
{
    Ok(Opening {
        tasks: Tasks::new(Vec::new(alloc)),
        registers: Registers::new(alloc),
        notes: NoteBook::new(alloc),
        identity: nobody(alloc)?,
        stamp: 0,
        again: 0,
    })
}

fn copied(alloc: Global, key: Option<KeyRef<'_>>) -> Result<Option<Key>, NoMemory>
    ensures { IfOk result (λ k. k ≡ option_map text_of key.entry) }
{
    match key {
        Some(key) => Ok(Some(Key::copy(alloc, key)?)),
        None => Ok(None),
    }
}

// The core of an info, and the key to tell of.
#[tactic(auto, using(crate::proofs::InfoLemmas::Informing::no_tasks, crate::proofs::InfoLemmas::Informing::info_begins))]
fn prepare(alloc: Global, key: Option<KeyRef<'_>>) -> Result<Ready, NoMemory>
    ensures { IfOk result (IsReady (option_map text_of key.entry)) }
{
    let key = copied(alloc, key)?;
    let opening = info_opening(alloc)?;
    let core = Core::new(alloc, opening)?;
    Ok(Ready { core, key })
}

// Nothing was started.
fn nothing_made<P: Programs>(alloc: Global, end: InfoEnd) -> InfoMade<P>
where
    P::Inlet: Drop,
    P::Outlet: Drop,
    ensures { result ≡ record { journal = []; wires = []; end = end } }
{
    InfoMade {
        journal: Journal::new(alloc),
        wires: Vec::new(alloc),
        end,
    }
}

// What is to be told of it: what was asked, or that no memory was found.
fn end_of(asked: Result<(), NoMemory>, key: Option<Key>) -> InfoEnd
    ensures { MatchResult asked (λ _. result ≡ Asked key) (λ _. result ≡ Memory) }
{
    match asked {
        Ok(()) => InfoEnd::Asked(key),
        Err(NoMemory) => InfoEnd::Memory,
    }
}

// The run of an info that is ready, with room for its one wire.
fn inform_ready<P: Programs>(
    alloc: Global,
    program: &str,
    key: Option<KeyRef<'_>>,
    ready: Ready,
    wires: Vec<Wire<P::Inlet, P::Outlet>>,
    programs: &mut P,
) -> InfoMade<P>
where
    P::Inlet: Drop,
    P::Outlet: Drop,
    requires key { refusal_if (option_map text_of key) ≡ None }
    requires ready { IsReady (option_map text_of key) ready }
    requires room { 1 ≤ vec_capacity wires }
    requires none { wires.items ≡ [] }
    ensures { HasInformed program.now (option_map text_of key.entry) (P.told programs.old) (P.told programs.new) result }
{
    let Ready {
        mut core,
        key: told,
    } = ready;
    let mut wires = wires;
    let asked = ask_child(alloc, program, key, programs, &mut core, &mut wires);
    InfoMade {
        journal: journal_of(core),
        wires,
        end: end_of(asked, told),
    }
}

// The run of an info whose key, where it has one, is fit.
fn inform_fit<P: Programs>(
    alloc: Global,
    program: &str,
    key: Option<KeyRef<'_>>,
    programs: &mut P,
) -> InfoMade<P>
where
    P::Inlet: Drop,
    P::Outlet: Drop,
    requires key { refusal_if (option_map text_of key) ≡ None }
    ensures { HasInformed program.now (option_map text_of key.entry) (P.told programs.old) (P.told programs.new) result }
{
    let Ok(wires) = Vec::with_capacity(alloc, 1) else {
        return nothing_made(alloc, InfoEnd::Memory);
    };
    match prepare(alloc, key) {
        Ok(ready) => inform_ready(alloc, program, key, ready, wires, programs),
        Err(NoMemory) => nothing_made(alloc, InfoEnd::Memory),
    }
}

// The words are an info of a key.
fn inform_of<P: Programs>(alloc: Global, program: &str, key: &str, programs: &mut P) -> InfoMade<P>
where
    P::Inlet: Drop,
    P::Outlet: Drop,
    ensures { InformsUnless (reason_refused key.now) program.now (Some key.now) (P.told programs.old) (P.told programs.new) result }
{
    let bytes = key.as_bytes();
    if let Some(reason) = refusal(bytes) {
        return nothing_made(alloc, InfoEnd::Refused(reason));
    }
    match KeyRef::read(bytes) {
        Ok(key) => inform_fit(alloc, program, Some(key), programs),
        Err(_) => unreachable!(),
    }
}

/// Starts the program, and asks its child about itself, and for the key where there is one; unless that is refused. Then the child is closed.
pub fn inform<P: Programs>(
    alloc: Global,
    program: &str,
    key: &Option<Text>,
    programs: &mut P,
) -> InfoMade<P>
where
    P::Inlet: Drop,
    P::Outlet: Drop,
    ensures { InformsUnless (refusal_if key.now) program.now key.now (P.told programs.old) (P.told programs.new) result }
{
    match key {
        Some(text) => inform_of(alloc, program, text.view(), programs),
        None => inform_fit(alloc, program, None, programs),
    }
}
