// An init: the kept file is read, the one child is asked, and what is set is kept.
ghost use Rattle.std.specs.Prelude.{◌≡◌, ◌<◌, [], IfOk, Ok, vec_capacity};
ghost use Rattle.ann_outside.specs.Desks.{no_counts};
ghost use Rattle.child_life.specs.End.Outsides.{OutsideValue};
ghost use Rattle.child_life.specs.End.Programs.{Leaves};
ghost use Rattle.ann_outside.specs.TextFile.Names.{NamesOnly};
ghost use Rattle.info_and_init.specs.Init.Inits.{AreSound, EndsInit, EndsKeep, HasSetUp, IsInitFile};
ghost use Rattle.info_and_init.specs.Init.Setups.{Begins};
ghost use Rattle.info_and_init.specs.declared.init.made.InitEnd.TheVariants.{Memory};

use crate::init::asking::ask;
use crate::init::beginning::{Begun, begin};
use crate::init::made::{InitEnd, InitMade};
use crate::init::setup::Setup;
use ann_key::NoMemory;
use ann_outside::{Desk, Desks, Programs};
use child_life::end::journal_of;
use child_link::Wire;
use cli_words::InitWords;
use host_core::Core;
use journal_look::Journal;
use journal_model::Opening;
use kept_file::desk::write_kept;
use std::alloc::Global;

// Room for what an init leaves of its objects.
#[derive(Drop)]
struct Room<P: Programs, K: Desks> {
    wires: Vec<Wire<P::Inlet, P::Outlet>>,
    tables: Vec<K::Desk>,
}

// What came of an init at its desk.
#[derive(Drop)]
struct Done {
    journal: Journal,
    end: InitEnd,
}

// Nothing was started.
fn nothing_done(alloc: Global, end: InitEnd) -> Done
    ensures { (result.journal.entries ≡ []) × (result.end ≡ end) }
{
    Done {
        journal: Journal::new(alloc),
        end,
    }
}

// No memory was found before anything was asked for.
fn nothing_made<P: Programs, K: Desks>(alloc: Global) -> InitMade<P, K>
where
    P::Inlet: Drop,
    P::Outlet: Drop,
    K::Desk: Drop,
    ensures { result ≡ record { journal = []; wires = []; tables = []; end = Memory } }
{
    InitMade {
        journal: Journal::new(alloc),
        wires: Vec::new(alloc),
        tables: Vec::new(alloc),
        end: InitEnd::Memory,
    }
}

fn take_room<P: Programs, K: Desks>(alloc: Global) -> Result<Room<P, K>, NoMemory>
where
    P::Inlet: Drop,
    P::Outlet: Drop,
    K::Desk: Drop,
    ensures { IfOk result (λ r. (r.wires.items ≡ []) × (0 < vec_capacity r.wires) × (r.tables.items ≡ []) × (0 < vec_capacity r.tables)) }
{
    let wires = Vec::with_capacity(alloc, 1)?;
    let tables = Vec::with_capacity(alloc, 1)?;
    Ok(Room { wires, tables })
}

/// Sets the remote up that the program serves, and keeps what it is set to: desk 0 is asked for, its kept file is read, the child is asked
/// INITREMOTE and closed, and where that succeeds the kept file is replaced.
pub fn set_up<P: Programs, K: Desks>(
    alloc: Global,
    words: &InitWords,
    programs: &mut P,
    desks: &mut K,
) -> InitMade<P, K>
where
    P::Inlet: Drop,
    P::Outlet: Drop,
    K::Desk: Drop,
    requires words { AreSound words.now }
    ensures { HasSetUp words.now (record { programs = P.told programs.old; made = K.made desks.old })
        (record { programs = P.told programs.new; made = K.made desks.new }) result }
{
    match take_room(alloc) {
        Ok(room) => at_desk(alloc, words, programs, desks, room),
        Err(NoMemory) => nothing_made(alloc),
    }
}

// The same, with room for what it leaves.
fn at_desk<P: Programs, K: Desks>(
    alloc: Global,
    words: &InitWords,
    programs: &mut P,
    desks: &mut K,
    room: Room<P, K>,
) -> InitMade<P, K>
where
    P::Inlet: Drop,
    P::Outlet: Drop,
    K::Desk: Drop,
    requires words { AreSound words.now }
    requires room { (room.wires.items ≡ []) × (0 < vec_capacity room.wires) × (room.tables.items ≡ []) × (0 < vec_capacity room.tables) }
    ensures { HasSetUp words.now (record { programs = P.told programs.old; made = K.made desks.old })
        (record { programs = P.told programs.new; made = K.made desks.new }) result }
{
    let Room {
        mut wires,
        mut tables,
    } = room;
    let Ok(mut desk) = desks.desk(0) else {
        return nothing_made(alloc);
    };
    let done = from_kept(alloc, words, programs, &mut desk, &mut wires);
    tables.push_reserved(desk);
    InitMade {
        journal: done.journal,
        wires,
        tables,
        end: done.end,
    }
}

// Reads the kept file, and sets the remote up over it.
fn from_kept<P: Programs, D: Desk>(
    alloc: Global,
    words: &InitWords,
    programs: &mut P,
    desk: &mut D,
    wires: &mut Vec<Wire<P::Inlet, P::Outlet>>,
) -> Done
where
    P::Inlet: Drop,
    P::Outlet: Drop,
    requires words { AreSound words.now }
    requires fresh { (D.told desk.old).counts ≡ no_counts }
    requires room { (wires.old.items ≡ []) × (0 < vec_capacity wires.old) }
    ensures ends { EndsInit words.now (D.told desk.old).files (D.told desk.new) result.journal.entries result.end }
    ensures calls { NamesOnly (IsInitFile words.now) (D.told desk.old).log (D.told desk.new).log }
    ensures leaves { Leaves (result.end ≡ Memory) words.now.program result.journal.entries (P.told programs.old)
        (P.told programs.new) wires.new.items }
{
    match begin(alloc, words, desk) {
        Ok(Begun::Ready(opening)) => ask_and_keep(alloc, words, opening, programs, desk, wires),
        Ok(Begun::BadLine(line)) => nothing_done(alloc, InitEnd::BadKept(line)),
        Ok(Begun::TooLarge) => nothing_done(alloc, InitEnd::KeptTooLarge),
        Ok(Begun::Fault) => nothing_done(alloc, InitEnd::FileFailed),
        Err(NoMemory) => nothing_done(alloc, InitEnd::Memory),
    }
}

// Sets the remote up from that opening, and keeps what it is set to.
fn ask_and_keep<P: Programs, D: Desk>(
    alloc: Global,
    words: &InitWords,
    opening: Opening,
    programs: &mut P,
    desk: &mut D,
    wires: &mut Vec<Wire<P::Inlet, P::Outlet>>,
) -> Done
where
    P::Inlet: Drop,
    P::Outlet: Drop,
    requires words { AreSound words.now }
    requires begins { Begins words.now (D.told desk.old).files (Ok (Begun.Ready opening)) }
    requires room { (wires.old.items ≡ []) × (0 < vec_capacity wires.old) }
    ensures ends { EndsInit words.now (D.told desk.old).files (D.told desk.new) result.journal.entries result.end }
    ensures calls { NamesOnly (IsInitFile words.now) (D.told desk.old).log (D.told desk.new).log }
    ensures leaves { Leaves (result.end ≡ Memory) words.now.program result.journal.entries (P.told programs.old)
        (P.told programs.new) wires.new.items }
{
    let Ok(mut core) = Core::new(alloc, opening) else {
        return nothing_done(alloc, InitEnd::Memory);
    };
    let asked = ask(alloc, words.program.view(), programs, &mut core, wires);
    let end = match asked {
        Ok(Setup::Initialized) => keep(alloc, words, desk, &core),
        Ok(Setup::Stopped(answer)) => InitEnd::NotSetUp(answer),
        Err(NoMemory) => InitEnd::Memory,
    };
    Done {
        journal: journal_of(core),
        end,
    }
}

// Puts what the registers hold after the journal, and the notes, in the place of the kept file.
fn keep<D: Desk>(alloc: Global, words: &InitWords, desk: &mut D, core: &Core) -> InitEnd
    ensures keeps { EndsKeep words.now (D.told desk.old).files (D.told desk.new).files (D.told desk.new).counts core.now.opening core.now.journal result }
    ensures calls { NamesOnly (IsInitFile words.now) (D.told desk.old).log (D.told desk.new).log }
{
    let registers = core.registers();
    let notes = &core.opening().notes;
    match write_kept(alloc, desk, words.keep.view(), registers, registers, notes) {
        Ok(written) => InitEnd::SetUp(written),
        Err(NoMemory) => InitEnd::Memory,
    }
}
