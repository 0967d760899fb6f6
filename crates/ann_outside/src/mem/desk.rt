// A desk in memory.
ghost use Rattle.std.specs.Prelude.{◌≡◌, ◌+◌, ◌-◌, ◌<◌, ◌^◌, [], ◌≢◌, ℕ, List, Some, None, option_copied, option_map, length, min, drop, IfOk, OnErr, IfSome, MatchResult};
ghost use Rattle.std.specs.Io.{ReadsAtMost};
ghost use Rattle.ann_outside.specs.Calls.{logged, bytes_read};
ghost use Rattle.ann_outside.specs.DeskCauses.{HasCauses, LeavesOther};
ghost use Rattle.ann_outside.specs.Desks.{no_counts};
ghost use Rattle.ann_outside.specs.Fails.{Begins};
ghost use Rattle.ann_outside.specs.Files.{content, WhereTold, CanCut, SizeIs, ReadIs, CreateDoes, CreateNewDoes, AppendDoes, CutDoes, RenameDoes, RemoveDoes, SyncIs};
ghost use Rattle.ann_outside.specs.Played.{Played};
ghost use Rattle.ann_outside.specs.declared.file_desk.Call.TheVariants.{Size, ReadAt, Create, Append, Cut, Rename, Remove};

use super::super::{Call, Desk, DeskError};
use super::files::{FileList, find};
use super::state::DeskState;
use ann_key::{Bytes, NoMemory, Text};
use std::alloc::Global;
use std::snapshot::Snapshot;

/// A desk in memory, which tells its files and keeps its log.
#[derive(Drop)]
pub struct MemDesk {
    state: DeskState,
    // the files that it had before the first call of its log
    origin: Snapshot<FileList>,
    ghost played: { ∥ Played state.log.items origin.value.items state.files.items ∥₁ },
}

impl MemDesk {
    ghost use Rattle.ann_outside.specs.MemDesk.{desk_fails};
    ghost use Rattle.ann_outside.specs.DeskState.{SameButLog};

    /// A desk with these files, of which the first of a name counts. The calls whose numbers are listed fail, counted
    /// from 1; a call that finds no memory isn't counted.
    pub fn new(
        alloc: Global,
        files: Vec<(Text, Bytes)>,
        fails: Vec<u64>,
    ) -> Result<MemDesk, NoMemory>
        ensures files { IfOk result (λ d. (⟦<MemDesk as Desk>⟧.told d).files ≡ Some files.items) }
        ensures log { IfOk result (λ d. (⟦<MemDesk as Desk>⟧.told d).log ≡ Some (record { origin = Some files.items; calls = [] })) }
        ensures counts { IfOk result (λ d. (⟦<MemDesk as Desk>⟧.told d).counts ≡ no_counts) }
        ensures fails { IfOk result (λ d. Begins (desk_fails d) fails.items) }
    {
        Ok(MemDesk::over(DeskState::new(alloc, files, fails)?))
    }

    // A desk on whose files no call was made.
    fn over(state: DeskState) -> MemDesk
        requires { state.log.items ≡ [] }
        ensures state { result.state ≡ state }
        ensures origin { result.origin.value.items ≡ state.files.items }
    {
        let origin = Snapshot::of(&state.files);
        MemDesk { state, origin }
    }

    /// The bytes of the file of that name, if there is one.
    pub fn content(&self, name: &str) -> Option<&Bytes>
        ensures { IfSome (⟦<MemDesk as Desk>⟧.told self.now).files (λ fs. option_copied result ≡ content name.now fs) }
    {
        find(self.state.files.as_slice(), name)
    }

    /// Its calls so far, in order, without those that found no memory.
    pub fn log(&self) -> &[Call]
        ensures { option_map (λ log. log.calls) (⟦<MemDesk as Desk>⟧.told self.now).log ≡ Some result.now }
    {
        self.state.log.as_slice()
    }

    /// Forgets its calls so far: its log begins with the files that it has. The numbers of the calls to come go on.
    pub fn forget_log(&mut self)
        ensures log { (⟦<MemDesk as Desk>⟧.told self.new).log ≡ Some (record { origin = (⟦<MemDesk as Desk>⟧.told self.old).files; calls = [] }) }
        ensures same { SameButLog self.old.state self.new.state }
    {
        self.origin = Snapshot::of(&self.state.files);
        self.state.log.clear();
    }

    // A desk with the same files, on which no call was made, and of which the same calls fail.
    pub(super) fn begun(&self) -> Result<MemDesk, NoMemory>
        ensures files { IfOk result (λ d. d.state.files.items ≡ self.now.state.files.items) }
        ensures fails { IfOk result (λ d. Begins (desk_fails d) self.now.state.fails.at.items) }
        ensures log { IfOk result (λ d. (d.state.log.items ≡ []) × (d.origin.value.items ≡ d.state.files.items)) }
        ensures missing { IfOk result (λ d. d.state.missing ≡ 0) }
    {
        Ok(MemDesk::over(self.state.begun()?))
    }
}

impl Desk for MemDesk {
    ghost use Rattle.ann_outside.specs.MemDesk.{desk_fails};
    ghost use Rattle.ann_outside.specs.DeskState.{IsCounted, IsCountedOr};

    ghost told = { λ d. record {
      counts = record { faults = d.state.fails.faults; missing = d.state.missing };
      files = Some d.state.files.items;
      log = Some (record { origin = Some d.origin.value.items; calls = d.state.log.items });
    } };

    fn size(&mut self, name: &str) -> Result<u64, DeskError>
        ensures files { (⟦<MemDesk as Desk>⟧.told self.new).files ≡ (⟦<MemDesk as Desk>⟧.told self.old).files }
        ensures told { IfSome (⟦<MemDesk as Desk>⟧.told self.old).files (λ fs. SizeIs name.now fs result) }
        ensures causes { HasCauses (⟦<MemDesk as Desk>⟧.told self.old).counts (⟦<MemDesk as Desk>⟧.told self.new).counts result }
        ensures apart { LeavesOther (⟦<MemDesk as Desk>⟧.told self.old).counts (⟦<MemDesk as Desk>⟧.told self.new).counts result }
        ensures log { (⟦<MemDesk as Desk>⟧.told self.new).log ≡ logged (⟦<MemDesk as Desk>⟧.told self.old).log (Size name.now result) }
        ensures counted { IsCounted (desk_fails self.old) (desk_fails self.new) result }
    {
        self.state.size(name)
    }

    fn read_at(&mut self, name: &str, from: u64, buf: &mut [u8]) -> Result<usize, DeskError>
        requires { 0 < length buf.old }
        ensures bound { ReadsAtMost result buf.new }
        ensures place { IfOk result (λ n. from + n < 2 ^ 64) }
        ensures files { (⟦<MemDesk as Desk>⟧.told self.new).files ≡ (⟦<MemDesk as Desk>⟧.told self.old).files }
        ensures told { IfSome (⟦<MemDesk as Desk>⟧.told self.old).files (λ fs. ReadIs name.now from buf.new fs result) }
        ensures much { IfSome (⟦<MemDesk as Desk>⟧.told self.old).files (λ fs. IfOk result (λ n. (bytes : List ℕ) → content name.now fs ≡ Some bytes
            → n ≡ min (length bytes - from) (length buf.old))) }
        ensures behind { MatchResult result (λ n. drop n buf.new ≡ drop n buf.old) (λ _. buf.new ≡ buf.old) }
        ensures causes { HasCauses (⟦<MemDesk as Desk>⟧.told self.old).counts (⟦<MemDesk as Desk>⟧.told self.new).counts result }
        ensures apart { LeavesOther (⟦<MemDesk as Desk>⟧.told self.old).counts (⟦<MemDesk as Desk>⟧.told self.new).counts result }
        ensures log { (⟦<MemDesk as Desk>⟧.told self.new).log ≡ logged (⟦<MemDesk as Desk>⟧.told self.old).log (ReadAt name.now from (bytes_read buf.new result)) }
        ensures counted { IsCounted (desk_fails self.old) (desk_fails self.new) result }
    {
        self.state.read_at(name, from, buf)
    }

    fn create(&mut self, name: &str) -> Result<(), DeskError>
        ensures found { result ≡ Err DeskError.Missing → ⊥ }
        ensures files { WhereTold (⟦<MemDesk as Desk>⟧.told self.old).files (⟦<MemDesk as Desk>⟧.told self.new).files (CreateDoes name.now result) }
        ensures err { OnErr result ((⟦<MemDesk as Desk>⟧.told self.new).files ≡ (⟦<MemDesk as Desk>⟧.told self.old).files) }
        ensures causes { HasCauses (⟦<MemDesk as Desk>⟧.told self.old).counts (⟦<MemDesk as Desk>⟧.told self.new).counts result }
        ensures apart { LeavesOther (⟦<MemDesk as Desk>⟧.told self.old).counts (⟦<MemDesk as Desk>⟧.told self.new).counts result }
        ensures log { (⟦<MemDesk as Desk>⟧.told self.new).log ≡ logged (⟦<MemDesk as Desk>⟧.told self.old).log (Create name.now result) }
        ensures counted { IsCounted (desk_fails self.old) (desk_fails self.new) result }
    {
        self.state.create(name)
    }

    fn create_new(&mut self, name: &str) -> Result<(), DeskError>
        ensures found { result ≡ Err DeskError.Missing → ⊥ }
        ensures files { WhereTold (⟦<MemDesk as Desk>⟧.told self.old).files (⟦<MemDesk as Desk>⟧.told self.new).files (CreateNewDoes name.now result) }
        ensures err { OnErr result ((⟦<MemDesk as Desk>⟧.told self.new).files ≡ (⟦<MemDesk as Desk>⟧.told self.old).files) }
        ensures causes { HasCauses (⟦<MemDesk as Desk>⟧.told self.old).counts (⟦<MemDesk as Desk>⟧.told self.new).counts result }
        ensures apart { LeavesOther (⟦<MemDesk as Desk>⟧.told self.old).counts (⟦<MemDesk as Desk>⟧.told self.new).counts result }
        ensures log { (⟦<MemDesk as Desk>⟧.told self.new).log ≡ logged (⟦<MemDesk as Desk>⟧.told self.old).log (Create name.now result) }
        ensures counted { IfSome (⟦<MemDesk as Desk>⟧.told self.old).files (λ fs. IsCountedOr (content name.now fs ≢ None) (desk_fails self.old) (desk_fails self.new) result) }
    {
        self.state.create_new(name)
    }

    fn append(&mut self, name: &str, piece: &[u8]) -> Result<(), DeskError>
        ensures files { WhereTold (⟦<MemDesk as Desk>⟧.told self.old).files (⟦<MemDesk as Desk>⟧.told self.new).files (AppendDoes name.now piece.now result) }
        ensures err { OnErr result ((⟦<MemDesk as Desk>⟧.told self.new).files ≡ (⟦<MemDesk as Desk>⟧.told self.old).files) }
        ensures causes { HasCauses (⟦<MemDesk as Desk>⟧.told self.old).counts (⟦<MemDesk as Desk>⟧.told self.new).counts result }
        ensures apart { LeavesOther (⟦<MemDesk as Desk>⟧.told self.old).counts (⟦<MemDesk as Desk>⟧.told self.new).counts result }
        ensures log { (⟦<MemDesk as Desk>⟧.told self.new).log ≡ logged (⟦<MemDesk as Desk>⟧.told self.old).log (Append name.now piece.now result) }
        ensures counted { IsCounted (desk_fails self.old) (desk_fails self.new) result }
    {
        self.state.append(name, piece)
    }

    fn cut(&mut self, name: &str, size: u64) -> Result<(), DeskError>
        requires { IfSome (⟦<MemDesk as Desk>⟧.told self.old).files (λ fs. CanCut name.now size fs) }
        ensures files { WhereTold (⟦<MemDesk as Desk>⟧.told self.old).files (⟦<MemDesk as Desk>⟧.told self.new).files (CutDoes name.now size result) }
        ensures err { OnErr result ((⟦<MemDesk as Desk>⟧.told self.new).files ≡ (⟦<MemDesk as Desk>⟧.told self.old).files) }
        ensures causes { HasCauses (⟦<MemDesk as Desk>⟧.told self.old).counts (⟦<MemDesk as Desk>⟧.told self.new).counts result }
        ensures apart { LeavesOther (⟦<MemDesk as Desk>⟧.told self.old).counts (⟦<MemDesk as Desk>⟧.told self.new).counts result }
        ensures log { (⟦<MemDesk as Desk>⟧.told self.new).log ≡ logged (⟦<MemDesk as Desk>⟧.told self.old).log (Cut name.now size result) }
        ensures counted { IsCounted (desk_fails self.old) (desk_fails self.new) result }
    {
        self.state.cut(name, size)
    }

    fn rename(&mut self, from: &str, to: &str) -> Result<(), DeskError>
        ensures files { WhereTold (⟦<MemDesk as Desk>⟧.told self.old).files (⟦<MemDesk as Desk>⟧.told self.new).files (RenameDoes from.now to.now result) }
        ensures err { OnErr result ((⟦<MemDesk as Desk>⟧.told self.new).files ≡ (⟦<MemDesk as Desk>⟧.told self.old).files) }
        ensures causes { HasCauses (⟦<MemDesk as Desk>⟧.told self.old).counts (⟦<MemDesk as Desk>⟧.told self.new).counts result }
        ensures apart { LeavesOther (⟦<MemDesk as Desk>⟧.told self.old).counts (⟦<MemDesk as Desk>⟧.told self.new).counts result }
        ensures log { (⟦<MemDesk as Desk>⟧.told self.new).log ≡ logged (⟦<MemDesk as Desk>⟧.told self.old).log (Rename from.now to.now result) }
        ensures counted { IsCounted (desk_fails self.old) (desk_fails self.new) result }
    {
        self.state.rename(from, to)
    }

    fn remove(&mut self, name: &str) -> Result<(), DeskError>
        ensures files { WhereTold (⟦<MemDesk as Desk>⟧.told self.old).files (⟦<MemDesk as Desk>⟧.told self.new).files (RemoveDoes name.now result) }
        ensures err { OnErr result ((⟦<MemDesk as Desk>⟧.told self.new).files ≡ (⟦<MemDesk as Desk>⟧.told self.old).files) }
        ensures causes { HasCauses (⟦<MemDesk as Desk>⟧.told self.old).counts (⟦<MemDesk as Desk>⟧.told self.new).counts result }
        ensures apart { LeavesOther (⟦<MemDesk as Desk>⟧.told self.old).counts (⟦<MemDesk as Desk>⟧.told self.new).counts result }
        ensures log { (⟦<MemDesk as Desk>⟧.told self.new).log ≡ logged (⟦<MemDesk as Desk>⟧.told self.old).log (Remove name.now result) }
        ensures counted { IsCounted (desk_fails self.old) (desk_fails self.new) result }
    {
        self.state.remove(name)
    }

    fn sync(&mut self, name: &str) -> Result<(), DeskError>
        ensures files { (⟦<MemDesk as Desk>⟧.told self.new).files ≡ (⟦<MemDesk as Desk>⟧.told self.old).files }
        ensures told { IfSome (⟦<MemDesk as Desk>⟧.told self.old).files (λ fs. SyncIs name.now fs result) }
        ensures causes { HasCauses (⟦<MemDesk as Desk>⟧.told self.old).counts (⟦<MemDesk as Desk>⟧.told self.new).counts result }
        ensures apart { LeavesOther (⟦<MemDesk as Desk>⟧.told self.old).counts (⟦<MemDesk as Desk>⟧.told self.new).counts result }
        ensures log { (⟦<MemDesk as Desk>⟧.told self.new).log ≡ (⟦<MemDesk as Desk>⟧.told self.old).log }
        ensures counted { IsCounted (desk_fails self.old) (desk_fails self.new) result }
    {
        self.state.sync(name)
    }

    ghost played = { λ d. d.played };
}
