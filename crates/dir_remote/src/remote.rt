// The directory remote.
ghost use Rattle.std.specs.Prelude.{◌≡◌, ◌∷◌, [], not, codes, false, IsTrue, IfOk, IfSome, None, Some};
ghost use Rattle.std.specs.Option.{option_copied};
ghost use Rattle.ann_key.specs.KeyRefs.{text_of};
ghost use Rattle.annex_model.specs.Lines.{has_newline};
ghost use Rattle.annex_model.specs.Messages.{is_sent_key};
ghost use Rattle.kit_serve.specs.declared.kit.call.Asked.TheVariants.{Prepare, Store, Retrieve, Check, Remove};
ghost use Rattle.kit_serve.specs.Kit.Calls.{called, are_lines, is_line_said};
ghost use Rattle.dir_remote.specs.Answers.{Prepares, PreparedBy, first_of};
ghost use Rattle.dir_remote.specs.Contents.{IsMark, LeavesInTransit};
ghost use Rattle.dir_remote.specs.Desks.{CheckAnswers, RemoveAnswers, RetrieveAnswers, StoreAnswers};

use crate::outcome::{Outcome, say};
use crate::works;
use ann_key::{KeyRef, NoMemory, Text};
use ann_outside::Desk;
use kit_serve::kit::{Remote, Said, Values};
use std::alloc::Global;
use std::marker::Model;
use std::str;

/// Keeps the content of each key in a file of its own below one directory of a desk. Its one setting is the directory.
///
/// Contracts see its directory, once one was given, and its desk. It tells no calls.
#[derive(Drop)]
pub struct DirRemote<D: Desk> {
    alloc: Global,
    mark: Option<Text>,
    directory: Option<Text>,
    desk: D,
}

impl<D: Desk> Model for DirRemote<D> {
    ghost use Rattle.std.specs.Prelude.{◌≡◌, false, IfSome};
    ghost use Rattle.annex_model.specs.Lines.{has_newline};
    ghost use Rattle.dir_remote.specs.Answers.{DirValue};
    ghost use Rattle.dir_remote.specs.Contents.{IsMark};

    ghost Value = { DirValue D };

    ghost view = { λ r. record { mark = r.mark; directory = r.directory; desk = r.desk } };

    ghost invariant = { λ r. IfSome r.mark IsMark × IfSome r.directory (λ directory. has_newline directory ≡ false) };
}

impl<D: Desk> DirRemote<D> {
    /// A remote over the desk, without a directory yet. It puts contents together in `DIRECTORY/tmp/FILENAME`, so only one such
    /// remote may use a directory at a time. It takes no memory.
    pub fn new(alloc: Global, desk: D) -> DirRemote<D>
        ensures mark { result.mark ≡ None }
        ensures directory { result.directory ≡ None }
        ensures desk { result.desk ≡ desk }
    {
        DirRemote {
            alloc,
            mark: None,
            directory: None,
            desk,
        }
    }

    /// The same, for a directory that other remotes use at the same time, each with a mark of its own. It puts contents together
    /// in `DIRECTORY/tmp/MARK-FILENAME`, in a file that it makes only where there is none of that name, and clears that file away
    /// where a store fails. It takes no memory.
    pub fn apart(alloc: Global, desk: D, mark: Text) -> DirRemote<D>
        requires { IsMark mark }
        ensures mark { result.mark ≡ Some mark }
        ensures directory { result.directory ≡ None }
        ensures desk { result.desk ≡ desk }
    {
        DirRemote {
            alloc,
            mark: Some(mark),
            directory: None,
            desk,
        }
    }

    /// The directory that it was given, if it was. It takes no memory.
    pub fn directory(&self) -> Option<&str>
        ensures directory { option_copied result ≡ self.now.directory }
        ensures line { IfSome self.now.directory (λ directory. has_newline directory ≡ false) }
    {
        match &self.directory {
            Some(directory) => Some(directory.view()),
            None => None,
        }
    }

    /// The desk. It takes no memory.
    pub fn close(self) -> D
        ensures { result ≡ self.desk }
    {
        let DirRemote {
            alloc: _,
            mark: _,
            directory: _,
            desk,
        } = self;
        desk
    }

    // What the value makes of the remote: how that went, and its directory then.
    fn directory_of(&self, value: &[u8]) -> (Outcome, Option<Text>)
        ensures { PreparedBy value.now result.0 result.1 }
    {
        if value.is_empty() {
            return (Outcome::NoDirectory, None);
        }
        let Ok(text) = str::from_utf8(value) else {
            return (Outcome::NotText, None);
        };
        match Text::copy(self.alloc, text) {
            Ok(directory) => (Outcome::Done, Some(directory)),
            Err(NoMemory) => (Outcome::NoMemory, None),
        }
    }
}

fn first(values: &Values) -> &[u8]
    ensures { result.now ≡ first_of values.now }
{
    match values.first() {
        Some(value) => value,
        None => &[],
    }
}

impl<D: Desk> Remote for DirRemote<D> {
    ghost settings = { λ r. codes "directory" ∷ [] };

    ghost calls = { λ r. None };

    fn setting(&self, n: u32) -> Option<&str> {
        match n {
            0 => Some("directory"),
            _ => None,
        }
    }

    fn prepare(&mut self, values: &Values) -> Result<Said, NoMemory>
        requires lines { IsTrue (are_lines values.now) }
        ensures calls { None ≡ called None (Prepare values.now) result }
        ensures settings { ⟦<DirRemote<D> as Remote>⟧.settings self.new ≡ ⟦<DirRemote<D> as Remote>⟧.settings self.old }
        ensures text { IfOk result (λ said. IsTrue (is_line_said said)) }
        ensures prepared { Prepares (first_of values.now) self.old.directory self.new.directory result }
        ensures desk { self.new.desk ≡ self.old.desk }
        ensures mark { self.new.mark ≡ self.old.mark }
    {
        let (outcome, directory) = self.directory_of(first(values));
        let said = say(self.alloc, outcome)?;
        self.directory = directory;
        Ok(said)
    }

    fn store(&mut self, key: KeyRef<'_>, file: &str) -> Result<Said, NoMemory>
        requires key { IsTrue (is_sent_key (text_of key)) }
        requires line { IsTrue (not (has_newline file.now)) }
        ensures calls { None ≡ called None (Store (text_of key.entry) file.now) result }
        ensures settings { ⟦<DirRemote<D> as Remote>⟧.settings self.new ≡ ⟦<DirRemote<D> as Remote>⟧.settings self.old }
        ensures text { IfOk result (λ said. IsTrue (is_line_said said)) }
        ensures stored { StoreAnswers (D.told self.old.desk) (D.told self.new.desk) self.old.mark self.old.directory (text_of key.entry) file.now result }
        ensures spared { LeavesInTransit self.old.mark self.old.directory (text_of key.entry) (D.told self.old.desk).files (D.told self.new.desk).files }
        ensures mark { self.new.mark ≡ self.old.mark }
        ensures directory { self.new.directory ≡ self.old.directory }
    {
        let outcome = match &self.directory {
            Some(directory) => works::store(
                self.alloc,
                &mut self.desk,
                directory.view(),
                &self.mark,
                key,
                file,
            ),
            None => Outcome::NotPrepared,
        };
        say(self.alloc, outcome)
    }

    fn retrieve(&mut self, key: KeyRef<'_>, file: &str) -> Result<Said, NoMemory>
        requires key { IsTrue (is_sent_key (text_of key)) }
        requires line { IsTrue (not (has_newline file.now)) }
        ensures calls { None ≡ called None (Retrieve (text_of key.entry) file.now) result }
        ensures settings { ⟦<DirRemote<D> as Remote>⟧.settings self.new ≡ ⟦<DirRemote<D> as Remote>⟧.settings self.old }
        ensures text { IfOk result (λ said. IsTrue (is_line_said said)) }
        ensures retrieved { RetrieveAnswers (D.told self.old.desk) (D.told self.new.desk) self.old.directory (text_of key.entry) file.now result }
        ensures mark { self.new.mark ≡ self.old.mark }
        ensures directory { self.new.directory ≡ self.old.directory }
    {
        let outcome = match &self.directory {
            Some(directory) => works::retrieve(
                self.alloc,
                &mut self.desk,
                directory.view(),
                key,
                file,
            ),
            None => Outcome::NotPrepared,
        };
        say(self.alloc, outcome)
    }

    fn check(&mut self, key: KeyRef<'_>) -> Result<Said, NoMemory>
        requires key { IsTrue (is_sent_key (text_of key)) }
        ensures calls { None ≡ called None (Check (text_of key.entry)) result }
        ensures settings { ⟦<DirRemote<D> as Remote>⟧.settings self.new ≡ ⟦<DirRemote<D> as Remote>⟧.settings self.old }
        ensures text { IfOk result (λ said. IsTrue (is_line_said said)) }
        ensures checked { CheckAnswers (D.told self.old.desk) (D.told self.new.desk) self.old.directory (text_of key.entry) result }
        ensures mark { self.new.mark ≡ self.old.mark }
        ensures directory { self.new.directory ≡ self.old.directory }
    {
        let outcome = match &self.directory {
            Some(directory) => works::check(self.alloc, &mut self.desk, directory.view(), key),
            None => Outcome::NotPrepared,
        };
        say(self.alloc, outcome)
    }

    fn remove(&mut self, key: KeyRef<'_>) -> Result<Said, NoMemory>
        requires key { IsTrue (is_sent_key (text_of key)) }
        ensures calls { None ≡ called None (Remove (text_of key.entry)) result }
        ensures settings { ⟦<DirRemote<D> as Remote>⟧.settings self.new ≡ ⟦<DirRemote<D> as Remote>⟧.settings self.old }
        ensures text { IfOk result (λ said. IsTrue (is_line_said said)) }
        ensures removed { RemoveAnswers (D.told self.old.desk) (D.told self.new.desk) self.old.directory (text_of key.entry) result }
        ensures mark { self.new.mark ≡ self.old.mark }
        ensures directory { self.new.directory ≡ self.old.directory }
    {
        let outcome = match &self.directory {
            Some(directory) => works::remove(self.alloc, &mut self.desk, directory.view(), key),
            None => Outcome::NotPrepared,
        };
        say(self.alloc, outcome)
    }
}
