// Programs in memory, each of which is a kit.
ghost use Rattle.std.specs.Prelude.{◌≡◌, ◌<◌, ◌≤◌, ◌++◌, ℕ, List, [], length, Err, IfOk, OnOk, None, Some, true, false};
ghost use Rattle.std.specs.Io.{ReadsAtMost};
ghost use Rattle.std.specs.Io.KnownBytes.{ReadConsumes, WriteAppends};
ghost use Rattle.rtrb.specs.Ring.{IsPair, SameConsumer};
ghost use Rattle.ann_outside.specs.Causes.{HasCause, IsBlank, Rose, StaysUntold};
ghost use Rattle.ann_outside.specs.Starts.{StartAdds, IsNumbered};
ghost use Rattle.kit_serve.specs.declared.end.End.TheVariants.{Eof};
ghost use Rattle.kit_memory.specs.Children.{IsReadOut, read_of};

use crate::chatty::Chatty;
use crate::child::Child;
use crate::feed::Feed;
use crate::pipe::{PipeInlet, PipeOutlet, pipe};
use ann_key::NoMemory;
use ann_outside::{Failed, Programs, Sink, Source, StartError, Started};
use kit_serve::kit::Remote;
use kit_serve::{KitVoice, Undescribed, Voice};
use std::alloc::Global;
use std::marker::{Send, Sync};
use std::sync::Wait;

/// What a host reads of a kit in memory. A read goes on with the kit until there is something to give: it waits for what the host
/// writes.
#[derive(Drop)]
pub struct KitOutlet<'a, T: Wait, R: Remote> {
    rt: &'a T,
    child: Child<PipeOutlet<'a, T>, Chatty<R>>,
    is_open: bool,
}

/// A kit in memory needs nothing that waits for it.
#[derive(Drop)]
pub struct KitStub;

/// Makes the remotes of kits in memory, one for each child.
pub trait Maker {
    type Remote: Remote + Send + Drop;

    /// The next child's remote. Where it finds no memory, no child is started.
    fn make(&mut self) -> Result<Self::Remote, NoMemory>;
}

/// Starts kits in memory, whatever program is asked for. Each serves a remote of its own. No call fails.
#[derive(Drop)]
pub struct KitPrograms<'a, T, M> {
    rt: &'a T,
    alloc: Global,
    maker: M,
    progress: u32,
}

impl<'a, T, M> KitPrograms<'a, T, M> {
    /// Programs whose children serve the remotes that the maker makes. It takes no memory.
    pub fn new(rt: &'a T, alloc: Global, maker: M) -> KitPrograms<'a, T, M> {
        KitPrograms::with_progress(rt, alloc, maker, 0)
    }

    /// The same, but each child says `PROGRESS 1` to `PROGRESS lines` before the last line of each transfer.
    pub fn with_progress(rt: &'a T, alloc: Global, maker: M, lines: u32) -> KitPrograms<'a, T, M> {
        KitPrograms {
            rt,
            alloc,
            maker,
            progress: lines,
        }
    }
}

impl<'a, T: Wait, R: Remote> KitOutlet<'a, T, R> {
    ghost use Rattle.kit_memory.specs.Children.{IsChild};

    /// As a fact: what was read of it is the first bytes of what its kit said, and the kit said that to what it heard.
    pub fn stands(&self)
        ensures { IsChild ⟦<PipeOutlet<'a, T> as Feed>⟧.heard ⟦<PipeOutlet<'a, T> as Feed>⟧.is_at_end ⟦<Chatty<R> as Voice>⟧.spoke ⟦<Chatty<R> as Voice>⟧.is_over
            ⟦<Chatty<R> as Voice>⟧.is_foul ⟦<Chatty<R> as Voice>⟧.lacks self.now.child }
    {
        self.child.stands();
    }

    /// As a fact, for who holds both halves of a child: what was written begins with what its kit heard, and is all of that where the kit ended
    /// with it.
    pub fn settle(self, inlet: &mut PipeInlet<'a, T>)
    where
        R: Drop,
        requires { IsPair inlet.old.ring self.child.source.ring }
        ensures heard { (rest : List ℕ)
            × ((⟦<PipeInlet<'a, T> as Sink>⟧.told inlet.new).taken ≡ Some (⟦<PipeOutlet<'a, T> as Feed>⟧.heard self.entry.child.source ++ rest))
            × (self.entry.child.end ≡ Some Eof → rest ≡ []) }
        ensures same { (⟦<PipeInlet<'a, T> as Sink>⟧.told inlet.new).taken ≡ (⟦<PipeInlet<'a, T> as Sink>⟧.told inlet.old).taken }
    {
        self.stands();
        let KitOutlet {
            rt: _,
            child,
            is_open: _,
        } = self;
        let mut heard = child.source();
        heard.settle(inlet);
    }
}

impl<'a, T: Wait, R: Remote> Source for KitOutlet<'a, T, R> {
    ghost told = { λ s. record { faults = 0; given = read_of s.child; left = None; is_open = s.is_open; number = None } };

    fn read(&mut self, buf: &mut [u8]) -> Result<usize, Failed>
        requires { (⟦<KitOutlet<'a, T, R> as Source>⟧.told self.old).is_open ≡ true }
        ensures bound { ReadsAtMost result buf.new }
        ensures bytes { ReadConsumes (⟦<KitOutlet<'a, T, R> as Source>⟧.told self.old).left (⟦<KitOutlet<'a, T, R> as Source>⟧.told self.new).left result buf.new }
        ensures given { WriteAppends (⟦<KitOutlet<'a, T, R> as Source>⟧.told self.old).given (⟦<KitOutlet<'a, T, R> as Source>⟧.told self.new).given result buf.new }
        ensures silent { StaysUntold (⟦<KitOutlet<'a, T, R> as Source>⟧.told self.old).left (⟦<KitOutlet<'a, T, R> as Source>⟧.told self.new).left
            × StaysUntold (⟦<KitOutlet<'a, T, R> as Source>⟧.told self.old).given (⟦<KitOutlet<'a, T, R> as Source>⟧.told self.new).given }
        ensures cause { HasCause (⟦<KitOutlet<'a, T, R> as Source>⟧.told self.old).faults (⟦<KitOutlet<'a, T, R> as Source>⟧.told self.new).faults result }
        ensures stays { ((⟦<KitOutlet<'a, T, R> as Source>⟧.told self.new).is_open ≡ true)
            × ((⟦<KitOutlet<'a, T, R> as Source>⟧.told self.new).number ≡ (⟦<KitOutlet<'a, T, R> as Source>⟧.told self.old).number)
            × SameConsumer self.old.child.source.ring self.new.child.source.ring }
        ensures ended { IfOk result (λ n. n ≡ 0 → 0 < length buf.new → (self.new.child.end ≡ None → ⊥) × IsReadOut self.new.child) }
    {
        let rt = self.rt;
        for _ in rt.forever() {
            if !self.child.is_silent() {
                break;
            }
            self.child.go_on();
        }
        Ok(self.child.say(buf))
    }

    fn close(&mut self)
        requires { (⟦<KitOutlet<'a, T, R> as Source>⟧.told self.old).is_open ≡ true }
        ensures closed { (⟦<KitOutlet<'a, T, R> as Source>⟧.told self.new).is_open ≡ false }
        ensures told { ((⟦<KitOutlet<'a, T, R> as Source>⟧.told self.new).left ≡ (⟦<KitOutlet<'a, T, R> as Source>⟧.told self.old).left)
            × ((⟦<KitOutlet<'a, T, R> as Source>⟧.told self.new).given ≡ (⟦<KitOutlet<'a, T, R> as Source>⟧.told self.old).given) }
        ensures counts { ((⟦<KitOutlet<'a, T, R> as Source>⟧.told self.new).faults ≡ (⟦<KitOutlet<'a, T, R> as Source>⟧.told self.old).faults)
            × ((⟦<KitOutlet<'a, T, R> as Source>⟧.told self.new).number ≡ (⟦<KitOutlet<'a, T, R> as Source>⟧.told self.old).number) }
        ensures child { self.new.child ≡ self.old.child }
    {
        self.is_open = false;
    }
}

impl<'a, T: Wait + Sync, M: Maker> Programs for KitPrograms<'a, T, M> {
    type Inlet = PipeInlet<'a, T>;

    type Outlet = KitOutlet<'a, T, M::Remote>;

    type Stub = KitStub;

    ghost told = { λ _. record { faults = 0; starts = None } };

    fn start(
        &mut self,
        program: &str,
    ) -> Result<Started<Self::Inlet, Self::Outlet, KitStub>, StartError>
        ensures faults { (⟦<KitPrograms<'a, T, M> as Programs>⟧.told self.old).faults ≤ (⟦<KitPrograms<'a, T, M> as Programs>⟧.told self.new).faults }
        ensures failed { result ≡ Err StartError.Failed → Rose (⟦<KitPrograms<'a, T, M> as Programs>⟧.told self.old).faults (⟦<KitPrograms<'a, T, M> as Programs>⟧.told self.new).faults }
        ensures done { OnOk result ((⟦<KitPrograms<'a, T, M> as Programs>⟧.told self.new).faults ≡ (⟦<KitPrograms<'a, T, M> as Programs>⟧.told self.old).faults) }
        ensures starts { StartAdds (⟦<KitPrograms<'a, T, M> as Programs>⟧.told self.old).starts (⟦<KitPrograms<'a, T, M> as Programs>⟧.told self.new).starts program.now result }
        ensures inlet { IfOk result (λ s. ((⟦<PipeInlet<'a, T> as Sink>⟧.told s.inlet).is_open ≡ true) × ((⟦<PipeInlet<'a, T> as Sink>⟧.told s.inlet).faults ≡ 0)
            × IsBlank (⟦<PipeInlet<'a, T> as Sink>⟧.told s.inlet).taken × IsNumbered (⟦<KitPrograms<'a, T, M> as Programs>⟧.told self.new).starts (⟦<PipeInlet<'a, T> as Sink>⟧.told s.inlet).number) }
        ensures outlet { IfOk result (λ s. ((⟦<KitOutlet<'a, T, M::Remote> as Source>⟧.told s.outlet).is_open ≡ true) × ((⟦<KitOutlet<'a, T, M::Remote> as Source>⟧.told s.outlet).faults ≡ 0)
            × IsBlank (⟦<KitOutlet<'a, T, M::Remote> as Source>⟧.told s.outlet).given
            × IsNumbered (⟦<KitPrograms<'a, T, M> as Programs>⟧.told self.new).starts (⟦<KitOutlet<'a, T, M::Remote> as Source>⟧.told s.outlet).number) }
        ensures pair { IfOk result (λ s. IsPair s.inlet.ring s.outlet.child.source.ring) }
    {
        let _any = program;
        let Ok(remote) = self.maker.make() else {
            return Err(StartError::NoMemory);
        };
        let Ok((inlet, heard)) = pipe(self.rt, self.alloc) else {
            return Err(StartError::NoMemory);
        };
        let kit = KitVoice::new(self.alloc, remote, Undescribed);
        let voice = Chatty::new(self.alloc, kit, self.progress);
        let Ok(child) = Child::new(self.alloc, voice, heard) else {
            return Err(StartError::NoMemory);
        };
        Ok(Started {
            inlet,
            outlet: KitOutlet {
                rt: self.rt,
                child,
                is_open: true,
            },
            stub: KitStub,
        })
    }

    fn finish(&mut self, stub: KitStub) -> Result<i32, Failed> {
        let KitStub = stub;
        Ok(0)
    }
}
