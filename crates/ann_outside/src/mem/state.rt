// What a desk in memory has, and what its calls do to it.
ghost use Rattle.std.specs.Prelude.{◌≡◌, ◌+◌, ◌-◌, ◌<◌, ◌^◌, [], ◌∷◌, ◌++◌, ◌≢◌, ℕ, List, Some, None, length, min, drop, vec_len, vec_capacity, IfOk, OnOk, OnErr, MatchResult};
ghost use Rattle.std.specs.Io.{ReadsAtMost};
ghost use Rattle.ann_outside.specs.Calls.{calls_with, bytes_read};
ghost use Rattle.ann_outside.specs.DeskCauses.{HasCauses, LeavesOther};
ghost use Rattle.ann_outside.specs.Fails.{Begins};
ghost use Rattle.ann_outside.specs.Files.{content, OthersStay, CanCut, SizeIs, ReadIs, CreateNewDoes, CreateDoes, AppendDoes, CutDoes, RenameDoes, RemoveDoes, SyncIs};
ghost use Rattle.ann_outside.specs.declared.file_desk.Call.{Call};
ghost use Rattle.ann_outside.specs.declared.file_desk.Call.TheVariants.{Size, ReadAt, Create, Append, Cut, Rename, Remove};

use super::super::{Call, DeskError};
use super::fails::Fails;
use super::files::{FileList, copy_all, copy_of, find, joined, piece_of, put, size_of, take_away};
use super::source::copy_front;
use ann_key::{Bytes, NoMemory, Text};
use std::alloc::Global;

/// The files of a desk in memory, its calls so far, and what it counts.
#[derive(Drop)]
pub struct DeskState {
    pub alloc: Global,
    pub files: FileList,
    pub log: Vec<Call>,
    pub fails: Fails,
    pub missing: u64,
}

impl DeskState {
    ghost use Rattle.ann_outside.specs.DeskState.{IsCounted, IsCountedOr, SameButLog, SameButFiles, SameButCounts, SameButRoom, state_counts};

    /// These files, on which no call was made.
    pub fn new(alloc: Global, files: FileList, fails: Vec<u64>) -> Result<DeskState, NoMemory>
        ensures files { IfOk result (λ d. d.files.items ≡ files.items) }
        ensures log { IfOk result (λ d. d.log.items ≡ []) }
        ensures missing { IfOk result (λ d. d.missing ≡ 0) }
        ensures fails { IfOk result (λ d. Begins d.fails fails.items) }
    {
        Ok(DeskState {
            alloc,
            files,
            log: Vec::with_capacity(alloc, 1)?,
            fails: Fails::new(fails),
            missing: 0,
        })
    }

    /// The same files, on which no call was made, and of which the same calls fail.
    pub fn begun(&self) -> Result<DeskState, NoMemory>
        ensures files { IfOk result (λ d. d.files.items ≡ self.now.files.items) }
        ensures fails { IfOk result (λ d. Begins d.fails self.now.fails.at.items) }
        ensures log { IfOk result (λ d. d.log.items ≡ []) }
        ensures missing { IfOk result (λ d. d.missing ≡ 0) }
    {
        Ok(DeskState {
            alloc: self.alloc,
            files: copy_all(self.alloc, self.files.as_slice())?,
            log: Vec::with_capacity(self.alloc, 1)?,
            fails: self.fails.begun(self.alloc)?,
            missing: 0,
        })
    }

    // Takes room for one more call in the log, and copies its name.
    fn begin(&mut self, name: &str) -> Result<Text, NoMemory>
        ensures name { IfOk result (λ t. t ≡ name.now) }
        ensures room { OnOk result (vec_len self.new.log < vec_capacity self.new.log) }
        ensures same { SameButRoom self.old self.new }
    {
        self.log.reserve(1)?;
        Text::copy(self.alloc, name)
    }

    // Takes room for one more file, and copies its name.
    fn begin_file(&mut self, name: &str) -> Result<Text, NoMemory>
        ensures name { IfOk result (λ t. t ≡ name.now) }
        ensures room { OnOk result (vec_len self.new.files < vec_capacity self.new.files) }
        ensures files { self.new.files.items ≡ self.old.files.items }
        ensures same { SameButFiles self.old self.new }
    {
        self.files.reserve(1)?;
        Text::copy(self.alloc, name)
    }

    // Logs the call.
    fn end(&mut self, call: Call)
        requires { vec_len self.old.log < vec_capacity self.old.log }
        ensures log { self.new.log.items ≡ self.old.log.items ++ call ∷ [] }
        ensures same { SameButLog self.old self.new }
    {
        self.log.push_reserved(call);
    }

    // Counts the call. It gives what was found for it, unless it is to fail.
    fn settle<T: Drop>(&mut self, found: Option<T>) -> Result<T, DeskError>
        ensures found { IfOk result (λ x. found ≡ Some x) }
        ensures missing { result ≡ Err DeskError.Missing → found ≡ None }
        ensures memory { result ≡ Err DeskError.NoMemory → ⊥ }
        ensures counted { IsCounted self.old.fails self.new.fails result }
        ensures causes { HasCauses (state_counts self.old) (state_counts self.new) result }
        ensures apart { LeavesOther (state_counts self.old) (state_counts self.new) result }
        ensures same { SameButCounts self.old self.new }
    {
        if self.fails.next() {
            return Err(DeskError::Failed);
        }
        match found {
            Some(found) => Ok(found),
            None => {
                self.missing = self.missing.saturating_add(1);
                Err(DeskError::Missing)
            }
        }
    }

    // Counts the call, and puts the file's next bytes in the place of those that it has.
    fn replace(&mut self, name: Text, next: Option<Bytes>) -> Result<(), DeskError>
        requires { vec_len self.old.files < vec_capacity self.old.files }
        ensures done { OnOk result (next ≢ None × (content name self.new.files.items ≡ next)
            × OthersStay (λ other. other ≡ name) self.old.files.items self.new.files.items) }
        ensures missing { result ≡ Err DeskError.Missing → next ≡ None }
        ensures err { OnErr result (self.new.files.items ≡ self.old.files.items) }
        ensures memory { result ≡ Err DeskError.NoMemory → ⊥ }
        ensures counted { IsCounted self.old.fails self.new.fails result }
        ensures causes { HasCauses (state_counts self.old) (state_counts self.new) result }
        ensures apart { LeavesOther (state_counts self.old) (state_counts self.new) result }
        ensures log { self.new.log ≡ self.old.log }
    {
        let bytes = self.settle(next)?;
        put(&mut self.files, name, bytes);
        Ok(())
    }

    // Counts the call, and makes the file where there is none of its name. One that stands is a fault.
    fn make_new(&mut self, name: Text) -> Result<(), DeskError>
        requires { vec_len self.old.files < vec_capacity self.old.files }
        ensures files { CreateNewDoes name result self.old.files.items self.new.files.items }
        ensures err { OnErr result (self.new.files.items ≡ self.old.files.items) }
        ensures memory { result ≡ Err DeskError.NoMemory → ⊥ }
        ensures counted { IsCountedOr (content name self.old.files.items ≢ None) self.old.fails self.new.fails result }
        ensures causes { HasCauses (state_counts self.old) (state_counts self.new) result }
        ensures apart { LeavesOther (state_counts self.old) (state_counts self.new) result }
        ensures log { self.new.log ≡ self.old.log }
    {
        if self.fails.next() {
            return Err(DeskError::Failed);
        }
        if find(self.files.as_slice(), name.view()).is_some() {
            self.fails.count();
            return Err(DeskError::Failed);
        }
        let empty = Bytes::from_vec(Vec::new(self.alloc));
        put(&mut self.files, name, empty);
        Ok(())
    }

    // Counts the call, and gives the file its other name.
    fn move_file(&mut self, from: &str, to: Text, moved: Option<Bytes>) -> Result<(), DeskError>
        requires room { vec_len self.old.files < vec_capacity self.old.files }
        requires moved { moved ≡ content from.now self.old.files.items }
        ensures files { RenameDoes from.now to result self.old.files.items self.new.files.items }
        ensures err { OnErr result (self.new.files.items ≡ self.old.files.items) }
        ensures memory { result ≡ Err DeskError.NoMemory → ⊥ }
        ensures counted { IsCounted self.old.fails self.new.fails result }
        ensures causes { HasCauses (state_counts self.old) (state_counts self.new) result }
        ensures apart { LeavesOther (state_counts self.old) (state_counts self.new) result }
        ensures log { self.new.log ≡ self.old.log }
    {
        let bytes = self.settle(moved)?;
        take_away(&mut self.files, from);
        put(&mut self.files, to, bytes);
        Ok(())
    }

    // Counts the call, and takes the file away.
    fn remove_file(&mut self, name: &str) -> Result<(), DeskError>
        ensures files { RemoveDoes name.now result self.old.files.items self.new.files.items }
        ensures err { OnErr result (self.new.files.items ≡ self.old.files.items) }
        ensures memory { result ≡ Err DeskError.NoMemory → ⊥ }
        ensures counted { IsCounted self.old.fails self.new.fails result }
        ensures causes { HasCauses (state_counts self.old) (state_counts self.new) result }
        ensures apart { LeavesOther (state_counts self.old) (state_counts self.new) result }
        ensures log { self.new.log ≡ self.old.log }
    {
        let size = size_of(self.files.as_slice(), name);
        self.settle(size)?;
        take_away(&mut self.files, name);
        Ok(())
    }

    /// The length of the file.
    pub fn size(&mut self, name: &str) -> Result<u64, DeskError>
        ensures files { self.new.files.items ≡ self.old.files.items }
        ensures told { SizeIs name.now self.old.files.items result }
        ensures causes { HasCauses (state_counts self.old) (state_counts self.new) result }
        ensures apart { LeavesOther (state_counts self.old) (state_counts self.new) result }
        ensures log { self.new.log.items ≡ calls_with self.old.log.items (Size name.now result) }
        ensures counted { IsCounted self.old.fails self.new.fails result }
    {
        let Ok(noted) = self.begin(name) else {
            return Err(DeskError::NoMemory);
        };
        let size = size_of(self.files.as_slice(), name);
        let answer = self.settle(size);
        self.end(Call::Size {
            name: noted,
            answer,
        });
        answer
    }

    /// Bytes of the file from that place on.
    pub fn read_at(&mut self, name: &str, from: u64, buf: &mut [u8]) -> Result<usize, DeskError>
        requires { 0 < length buf.old }
        ensures bound { ReadsAtMost result buf.new }
        ensures place { IfOk result (λ n. from + n < 2 ^ 64) }
        ensures files { self.new.files.items ≡ self.old.files.items }
        ensures told { ReadIs name.now from buf.new self.old.files.items result }
        ensures much { IfOk result (λ n. (bytes : List ℕ) → content name.now self.old.files.items ≡ Some bytes → n ≡ min (length bytes - from) (length buf.old)) }
        ensures behind { MatchResult result (λ n. drop n buf.new ≡ drop n buf.old) (λ _. buf.new ≡ buf.old) }
        ensures causes { HasCauses (state_counts self.old) (state_counts self.new) result }
        ensures apart { LeavesOther (state_counts self.old) (state_counts self.new) result }
        ensures log { self.new.log.items ≡ calls_with self.old.log.items (ReadAt name.now from (bytes_read buf.new result)) }
        ensures counted { IsCounted self.old.fails self.new.fails result }
    {
        let Ok(noted) = self.begin(name) else {
            return Err(DeskError::NoMemory);
        };
        let Ok(piece) = piece_of(self.alloc, self.files.as_slice(), name, from, buf.len()) else {
            return Err(DeskError::NoMemory);
        };
        match self.settle(piece) {
            Ok(piece) => {
                let count = copy_front(piece.view(), buf);
                self.end(Call::ReadAt {
                    name: noted,
                    from,
                    answer: Ok(piece),
                });
                Ok(count)
            }
            Err(e) => {
                self.end(Call::ReadAt {
                    name: noted,
                    from,
                    answer: Err(e),
                });
                Err(e)
            }
        }
    }

    /// Makes the file, empty.
    pub fn create(&mut self, name: &str) -> Result<(), DeskError>
        ensures found { result ≡ Err DeskError.Missing → ⊥ }
        ensures files { CreateDoes name.now result self.old.files.items self.new.files.items }
        ensures err { OnErr result (self.new.files.items ≡ self.old.files.items) }
        ensures causes { HasCauses (state_counts self.old) (state_counts self.new) result }
        ensures apart { LeavesOther (state_counts self.old) (state_counts self.new) result }
        ensures log { self.new.log.items ≡ calls_with self.old.log.items (Create name.now result) }
        ensures counted { IsCounted self.old.fails self.new.fails result }
    {
        let Ok(noted) = self.begin(name) else {
            return Err(DeskError::NoMemory);
        };
        let Ok(filed) = self.begin_file(name) else {
            return Err(DeskError::NoMemory);
        };
        let empty = Bytes::from_vec(Vec::new(self.alloc));
        let answer = self.replace(filed, Some(empty));
        self.end(Call::Create {
            name: noted,
            answer,
        });
        answer
    }

    /// Makes the file, empty, where there is none of its name.
    pub fn create_new(&mut self, name: &str) -> Result<(), DeskError>
        ensures found { result ≡ Err DeskError.Missing → ⊥ }
        ensures files { CreateNewDoes name.now result self.old.files.items self.new.files.items }
        ensures err { OnErr result (self.new.files.items ≡ self.old.files.items) }
        ensures causes { HasCauses (state_counts self.old) (state_counts self.new) result }
        ensures apart { LeavesOther (state_counts self.old) (state_counts self.new) result }
        ensures log { self.new.log.items ≡ calls_with self.old.log.items (Create name.now result) }
        ensures counted { IsCountedOr (content name.now self.old.files.items ≢ None) self.old.fails self.new.fails result }
    {
        let Ok(noted) = self.begin(name) else {
            return Err(DeskError::NoMemory);
        };
        let Ok(filed) = self.begin_file(name) else {
            return Err(DeskError::NoMemory);
        };
        let answer = self.make_new(filed);
        self.end(Call::Create {
            name: noted,
            answer,
        });
        answer
    }

    /// Adds the piece at the end of the file.
    pub fn append(&mut self, name: &str, piece: &[u8]) -> Result<(), DeskError>
        ensures files { AppendDoes name.now piece.now result self.old.files.items self.new.files.items }
        ensures err { OnErr result (self.new.files.items ≡ self.old.files.items) }
        ensures causes { HasCauses (state_counts self.old) (state_counts self.new) result }
        ensures apart { LeavesOther (state_counts self.old) (state_counts self.new) result }
        ensures log { self.new.log.items ≡ calls_with self.old.log.items (Append name.now piece.now result) }
        ensures counted { IsCounted self.old.fails self.new.fails result }
    {
        let Ok(noted) = self.begin(name) else {
            return Err(DeskError::NoMemory);
        };
        let Ok(added) = Bytes::copy(self.alloc, piece) else {
            return Err(DeskError::NoMemory);
        };
        let Ok(longer) = joined(self.alloc, self.files.as_slice(), name, piece) else {
            return Err(DeskError::NoMemory);
        };
        let Ok(filed) = self.begin_file(name) else {
            return Err(DeskError::NoMemory);
        };
        let answer = self.replace(filed, longer);
        self.end(Call::Append {
            name: noted,
            piece: added,
            answer,
        });
        answer
    }

    /// Shortens the file.
    pub fn cut(&mut self, name: &str, size: u64) -> Result<(), DeskError>
        requires { CanCut name.now size self.old.files.items }
        ensures files { CutDoes name.now size result self.old.files.items self.new.files.items }
        ensures err { OnErr result (self.new.files.items ≡ self.old.files.items) }
        ensures causes { HasCauses (state_counts self.old) (state_counts self.new) result }
        ensures apart { LeavesOther (state_counts self.old) (state_counts self.new) result }
        ensures log { self.new.log.items ≡ calls_with self.old.log.items (Cut name.now size result) }
        ensures counted { IsCounted self.old.fails self.new.fails result }
    {
        let Ok(noted) = self.begin(name) else {
            return Err(DeskError::NoMemory);
        };
        let room = usize::try_from(size).unwrap_or(usize::MAX);
        let Ok(shorter) = piece_of(self.alloc, self.files.as_slice(), name, 0, room) else {
            return Err(DeskError::NoMemory);
        };
        let Ok(filed) = self.begin_file(name) else {
            return Err(DeskError::NoMemory);
        };
        let answer = self.replace(filed, shorter);
        self.end(Call::Cut {
            name: noted,
            size,
            answer,
        });
        answer
    }

    /// Gives the file another name.
    pub fn rename(&mut self, from: &str, to: &str) -> Result<(), DeskError>
        ensures files { RenameDoes from.now to.now result self.old.files.items self.new.files.items }
        ensures err { OnErr result (self.new.files.items ≡ self.old.files.items) }
        ensures causes { HasCauses (state_counts self.old) (state_counts self.new) result }
        ensures apart { LeavesOther (state_counts self.old) (state_counts self.new) result }
        ensures log { self.new.log.items ≡ calls_with self.old.log.items (Rename from.now to.now result) }
        ensures counted { IsCounted self.old.fails self.new.fails result }
    {
        let Ok(noted) = self.begin(from) else {
            return Err(DeskError::NoMemory);
        };
        let Ok(noted_to) = Text::copy(self.alloc, to) else {
            return Err(DeskError::NoMemory);
        };
        let Ok(moved) = copy_of(self.alloc, self.files.as_slice(), from) else {
            return Err(DeskError::NoMemory);
        };
        let Ok(filed) = self.begin_file(to) else {
            return Err(DeskError::NoMemory);
        };
        let answer = self.move_file(from, filed, moved);
        self.end(Call::Rename {
            from: noted,
            to: noted_to,
            answer,
        });
        answer
    }

    /// Takes the file away.
    pub fn remove(&mut self, name: &str) -> Result<(), DeskError>
        ensures files { RemoveDoes name.now result self.old.files.items self.new.files.items }
        ensures err { OnErr result (self.new.files.items ≡ self.old.files.items) }
        ensures causes { HasCauses (state_counts self.old) (state_counts self.new) result }
        ensures apart { LeavesOther (state_counts self.old) (state_counts self.new) result }
        ensures log { self.new.log.items ≡ calls_with self.old.log.items (Remove name.now result) }
        ensures counted { IsCounted self.old.fails self.new.fails result }
    {
        let Ok(noted) = self.begin(name) else {
            return Err(DeskError::NoMemory);
        };
        let answer = self.remove_file(name);
        self.end(Call::Remove {
            name: noted,
            answer,
        });
        answer
    }

    /// Looks whether the file is there.
    pub fn sync(&mut self, name: &str) -> Result<(), DeskError>
        ensures files { self.new.files.items ≡ self.old.files.items }
        ensures told { SyncIs name.now self.old.files.items result }
        ensures causes { HasCauses (state_counts self.old) (state_counts self.new) result }
        ensures apart { LeavesOther (state_counts self.old) (state_counts self.new) result }
        ensures log { self.new.log.items ≡ self.old.log.items }
        ensures counted { IsCounted self.old.fails self.new.fails result }
    {
        let size = size_of(self.files.as_slice(), name);
        self.settle(size)?;
        Ok(())
    }
}
