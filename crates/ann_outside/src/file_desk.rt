// Desks: files by name, which a task reads and writes.
//
// A desk has a count of faults and a count of missing files, and neither ever falls. A call answers `Failed` only where
// the first rose in that call, and `Missing` only where the second did. What files it has, and the log of its calls,
// are meanings that it may or may not tell; a desk in memory tells them, a real one doesn't.
ghost use Rattle.ann_outside.specs.Told.{DeskTold, IsNew};
ghost use Rattle.std.specs.Prelude.{◌≡◌, ℕ, ◌+◌, ◌<◌, ◌^◌, length, List, Option, IfOk, IfSome, MatchResult};
ghost use Rattle.std.specs.Io.{ReadsAtMost};
ghost use Rattle.ann_outside.specs.Calls.{logged, bytes_read};
ghost use Rattle.ann_outside.specs.Causes.{AddsOne, Stays};
ghost use Rattle.ann_outside.specs.DeskCauses.{HasCauses, LeavesOther, Counts};
ghost use Rattle.ann_outside.specs.Desks.{Made};
ghost use Rattle.ann_outside.specs.Files.{Files, WhereTold, CanCut, SizeIs, ReadIs, CreateDoes, CreateNewDoes, AppendDoes, CutDoes, RenameDoes, RemoveDoes, SyncIs};
ghost use Rattle.ann_outside.specs.Played.{ArePlayed};
ghost use Rattle.ann_outside.specs.declared.file_desk.Call.TheVariants.{Size, ReadAt, Create, Append, Cut, Rename, Remove};

use ann_key::{Bytes, NoMemory, Text};
use std::marker::Send;

/// Why a call of a desk did nothing.
#[derive(Clone, Copy, Debug, PartialEq, Eq)]
pub enum DeskError {
    /// It failed, and the desk counted it.
    Failed,
    /// There is no file of that name, and the desk counted it.
    Missing,
    /// No memory was found.
    NoMemory,
}

/// A call of a desk, and its answer.
#[derive(Drop)]
pub enum Call {
    Size {
        name: Text,
        answer: Result<u64, DeskError>,
    },
    /// The bytes that were read from that place on.
    ReadAt {
        name: Text,
        from: u64,
        answer: Result<Bytes, DeskError>,
    },
    Create {
        name: Text,
        answer: Result<(), DeskError>,
    },
    Append {
        name: Text,
        piece: Bytes,
        answer: Result<(), DeskError>,
    },
    Cut {
        name: Text,
        size: u64,
        answer: Result<(), DeskError>,
    },
    Rename {
        from: Text,
        to: Text,
        answer: Result<(), DeskError>,
    },
    Remove {
        name: Text,
        answer: Result<(), DeskError>,
    },
}

/// Files by name.
pub trait Desk {
    // its counts, and where it tells them its files and its calls so far
    ghost told: { Self → DeskTold };

    /// The length of the file.
    fn size(&mut self, name: &str) -> Result<u64, DeskError>
        ensures causes { HasCauses (told self.old).counts (told self.new).counts result }
        ensures apart { LeavesOther (told self.old).counts (told self.new).counts result }
        ensures files { (told self.new).files ≡ (told self.old).files }
        ensures told { IfSome (told self.old).files (λ fs. SizeIs name.now fs result) }
        ensures log { (told self.new).log ≡ logged (told self.old).log (Size name.now result) };

    /// Puts bytes of the file, from place `from` on, at the front of `buf`, and answers how many. 0 is the end of the file.
    fn read_at(&mut self, name: &str, from: u64, buf: &mut [u8]) -> Result<usize, DeskError>
        requires { 0 < length buf.old }
        ensures bound { ReadsAtMost result buf.new }
        ensures place { IfOk result (λ n. from + n < 2 ^ 64) }
        ensures causes { HasCauses (told self.old).counts (told self.new).counts result }
        ensures apart { LeavesOther (told self.old).counts (told self.new).counts result }
        ensures files { (told self.new).files ≡ (told self.old).files }
        ensures told { IfSome (told self.old).files (λ fs. ReadIs name.now from buf.new fs result) }
        ensures log { (told self.new).log ≡ logged (told self.old).log (ReadAt name.now from (bytes_read buf.new result)) };

    /// Makes the file, empty, and the folders of its name that are missing. It never answers `Missing`.
    fn create(&mut self, name: &str) -> Result<(), DeskError>
        ensures causes { HasCauses (told self.old).counts (told self.new).counts result }
        ensures apart { LeavesOther (told self.old).counts (told self.new).counts result }
        ensures found { result ≡ Err DeskError.Missing → ⊥ }
        ensures files { WhereTold (told self.old).files (told self.new).files (CreateDoes name.now result) }
        ensures log { (told self.new).log ≡ logged (told self.old).log (Create name.now result) };

    /// Makes the file, empty, and the folders of its name that are missing. A name that stands is a fault. It never answers
    /// `Missing`.
    fn create_new(&mut self, name: &str) -> Result<(), DeskError>
        ensures causes { HasCauses (told self.old).counts (told self.new).counts result }
        ensures apart { LeavesOther (told self.old).counts (told self.new).counts result }
        ensures found { result ≡ Err DeskError.Missing → ⊥ }
        ensures files { WhereTold (told self.old).files (told self.new).files (CreateNewDoes name.now result) }
        ensures log { (told self.new).log ≡ logged (told self.old).log (Create name.now result) };

    /// Adds the piece at the end of the file.
    fn append(&mut self, name: &str, piece: &[u8]) -> Result<(), DeskError>
        ensures causes { HasCauses (told self.old).counts (told self.new).counts result }
        ensures apart { LeavesOther (told self.old).counts (told self.new).counts result }
        ensures files { WhereTold (told self.old).files (told self.new).files (AppendDoes name.now piece.now result) }
        ensures log { (told self.new).log ≡ logged (told self.old).log (Append name.now piece.now result) };

    /// Shortens the file, which is at least that long.
    fn cut(&mut self, name: &str, size: u64) -> Result<(), DeskError>
        requires { IfSome (told self.old).files (λ fs. CanCut name.now size fs) }
        ensures causes { HasCauses (told self.old).counts (told self.new).counts result }
        ensures apart { LeavesOther (told self.old).counts (told self.new).counts result }
        ensures files { WhereTold (told self.old).files (told self.new).files (CutDoes name.now size result) }
        ensures log { (told self.new).log ≡ logged (told self.old).log (Cut name.now size result) };

    /// Gives the file another name, in the place of the file that had it. Folders of that name that are missing are made.
    fn rename(&mut self, from: &str, to: &str) -> Result<(), DeskError>
        ensures causes { HasCauses (told self.old).counts (told self.new).counts result }
        ensures apart { LeavesOther (told self.old).counts (told self.new).counts result }
        ensures files { WhereTold (told self.old).files (told self.new).files (RenameDoes from.now to.now result) }
        ensures log { (told self.new).log ≡ logged (told self.old).log (Rename from.now to.now result) };

    /// Takes the file away.
    fn remove(&mut self, name: &str) -> Result<(), DeskError>
        ensures causes { HasCauses (told self.old).counts (told self.new).counts result }
        ensures apart { LeavesOther (told self.old).counts (told self.new).counts result }
        ensures files { WhereTold (told self.old).files (told self.new).files (RemoveDoes name.now result) }
        ensures log { (told self.new).log ≡ logged (told self.old).log (Remove name.now result) };

    /// Puts what was added to the file on the disk before it answers `Ok`. What it is for lies outside of what a contract can
    /// see, as with `Sink::flush`: to whoever asks the desk the files are the same before and after. It isn't in the log.
    fn sync(&mut self, name: &str) -> Result<(), DeskError>
        ensures causes { HasCauses (told self.old).counts (told self.new).counts result }
        ensures apart { LeavesOther (told self.old).counts (told self.new).counts result }
        ensures files { (told self.new).files ≡ (told self.old).files }
        ensures told { IfSome (told self.old).files (λ fs. SyncIs name.now fs result) }
        ensures log { (told self.new).log ≡ (told self.old).log };

    // where it tells both, its files are what its calls made, in their order, of those that it had before
    ghost played: { (d : Self) → ∥ ArePlayed (told d).log (told d).files ∥₁ };
}

/// What makes desks, one for each worker.
pub trait Desks {
    type Desk: Desk + Send;

    // the desks that it made so far; a call that found no memory isn't among them
    ghost made: { Self → Option (List Made) };

    /// The desk of that worker. It has counted nothing and no call was made on it, and its log begins with the files that it has.
    fn desk(&mut self, number: u32) -> Result<Self::Desk, NoMemory>
        ensures made { MatchResult result
            (λ d. AddsOne (made self.old) (made self.new) (record { number = number; files = (Self.Desk.told d).files }))
            (λ _. Stays (made self.old) (made self.new)) }
        ensures fresh { IfOk result (λ d. IsNew (Self.Desk.told d)) };
}
