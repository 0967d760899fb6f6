// A directory remote that looks at its directory before it touches it.
ghost use Rattle.std.specs.Prelude.{◌≡◌, ◌≢◌, ◌∷◌, [], not, codes, IsTrue, IfOk, None, Some, Ok, Err, Bool};
ghost use Rattle.std.specs.Str.{IsUtf8};
ghost use Rattle.ann_key.specs.KeyRefs.{text_of};
ghost use Rattle.annex_model.specs.Lines.{has_newline};
ghost use Rattle.annex_model.specs.Messages.{is_sent_key};
ghost use Rattle.kit_serve.specs.Kit.Calls.{called, are_lines, is_line_said, plain};
ghost use Rattle.kit_serve.specs.declared.kit.call.Asked.TheVariants.{Initialize, Prepare, Store, Retrieve, Check, Remove};
ghost use Rattle.dir_remote.specs.Answers.{first_of};
ghost use Rattle.dir_remote.specs.Contents.{IsMark};
ghost use Rattle.dir_remote.specs.Guard.Gates.{looks_of};
ghost use Rattle.dir_remote.specs.Guard.Steps.{AddsSome};
ghost use Rattle.dir_remote.specs.Guard.Guards.{Checks, Enters, Founds, Initializes, Keeps, SameButPlace, Stands, SweptAs, ReadiesBy, Removes, Retrieves, SetsUpKept, SetsUpRelative, Stores, IsRefused, is_relative, told_by};

use crate::DirRemote;
use crate::guard::gates::{enter, enter_to_remove, enter_to_store, found, is_whole};
use crate::guard::keeping::{is_kept, keeping, one_value};
use crate::guard::place::Place;
use crate::guard::sentences::relative;
use crate::guard::sweeping::sweep;
use ann_key::{KeyRef, NoMemory, Text};
use ann_outside::Desk;
use kit_serve::kit::{Availability, Describe, Pair, Remote, Said, Values, Where};
use std::alloc::Global;
use std::marker::Model;
use std::str;

/// Hands each call on to a directory remote with a mark, once it has looked at the directory: where a whole DIRECTORY isn't there,
/// nothing is made and nothing called absent. A store makes the folders that it needs, one below the other, and neither it
/// nor a removal follows a link below DIRECTORY. One of several that use a directory sweeps it: it removes what stores of
/// ended processes left in DIRECTORY/tmp.
#[derive(Drop)]
pub struct Guarded<P: Place, D: Desk> {
    alloc: Global,
    place: P,
    remote: DirRemote<D>,
    sweeps: bool,
}

impl<P: Place, D: Desk> Model for Guarded<P, D> {
    ghost use Rattle.dir_remote.specs.Guard.Guards.{GuardValue};

    ghost Value = { GuardValue P D };

    ghost view = { λ g. record { place = g.place; mark = g.remote.mark; directory = g.remote.directory; desk = g.remote.desk; sweeps = g.sweeps } };
}

fn first(values: &Values) -> &[u8]
    ensures { result.now ≡ first_of values.now }
{
    match values.first() {
        Some(value) => value,
        None => &[],
    }
}

fn is_relative(path: &[u8]) -> bool
    ensures { result ≡ is_relative path.now }
{
    match path {
        [] => false,
        [first, ..] => *first != b'/',
    }
}

impl<P: Place, D: Desk> Guarded<P, D> {
    /// A remote over the desk, with this mark, without a directory yet. It takes no memory.
    pub fn new(alloc: Global, place: P, desk: D, mark: Text, sweeps: bool) -> Guarded<P, D>
        requires { IsMark mark }
        ensures { result ≡ record { place = place; mark = Some mark; directory = None; desk = desk; sweeps = sweeps } }
    {
        Guarded {
            alloc,
            place,
            remote: DirRemote::apart(alloc, desk, mark),
            sweeps,
        }
    }

    // Looks again at the directory, where what was said takes that.
    fn confirm(&mut self, said: Said) -> Result<Said, NoMemory>
        requires line { IsTrue (is_line_said said) }
        ensures confirmed { AddsSome (P.steps self.old.place) (P.steps self.new.place) (λ steps. Stands (looks_of self.old.directory) steps (Ok said) result) }
        ensures line { IfOk result (λ s. IsTrue (is_line_said s)) }
        ensures same { SameButPlace self.old self.new }
    {
        match enter(self.alloc, &mut self.place, self.remote.directory())? {
            Some(failure) => {
                drop(said);
                Ok(failure)
            }
            None => Ok(said),
        }
    }

    // Clears the directory, where this remote does.
    fn clear(&mut self) -> Result<(), NoMemory>
        ensures cleared { AddsSome (P.steps self.old.place) (P.steps self.new.place) (λ steps. SweptAs self.old.sweeps self.old.directory steps result) }
        ensures same { SameButPlace self.old self.new }
    {
        if self.sweeps {
            if let Some(directory) = self.remote.directory() {
                sweep(self.alloc, &mut self.place, directory)?;
            }
        }
        Ok(())
    }
}

impl<P: Place, D: Desk> Guarded<P, D> {
    // Looks whether the directory is there, and clears it.
    fn get_ready(&mut self) -> Result<Said, NoMemory>
        ensures entered { AddsSome (P.steps self.old.place) (P.steps self.new.place) (λ steps. Enters self.old.sweeps self.old.directory steps result) }
        ensures line { IfOk result (λ said. IsTrue (is_line_said said)) }
        ensures same { SameButPlace self.old self.new }
    {
        if let Some(failure) = enter(self.alloc, &mut self.place, self.remote.directory())? {
            return Ok(failure);
        }
        self.clear()?;
        Ok(Said::Yes)
    }

    // Makes the directory of the values, leaves its sign in it, and gets ready.
    fn set_up(&mut self, directory: &str, values: &Values) -> Result<Said, NoMemory>
        requires lines { IsTrue (are_lines values.now) }
        requires value { first_of values.now ≡ directory.now }
        ensures founds { Founds self.old.sweeps directory.now (told_by P.steps D.told self.old) (told_by P.steps D.told self.new) result }
        ensures line { IfOk result (λ said. IsTrue (is_line_said said)) }
        ensures sweeps { self.new.sweeps ≡ self.old.sweeps }
    {
        if let Some(said) = found(self.alloc, &mut self.place, directory)? {
            return Ok(said);
        }
        self.prepare(values)
    }
}

// A relative directory, which is set up by its path from the root.
impl<P: Place, D: Desk> Guarded<P, D> {
    // Sets up the directory of that path, and has the host keep the path.
    fn set_up_kept(&mut self, path: &str) -> Result<Said, NoMemory>
        requires line { IsTrue (not (has_newline path.now)) }
        ensures kept { SetsUpKept self.old.sweeps path.now (told_by P.steps D.told self.old) (told_by P.steps D.told self.new) result }
        ensures line { IfOk result (λ said. IsTrue (is_line_said said)) }
        ensures sweeps { self.new.sweeps ≡ self.old.sweeps }
    {
        let pairs = keeping(self.alloc, path)?;
        let values = one_value(self.alloc, path)?;
        match self.set_up(path, &values) {
            Ok(Said::Yes) => Ok(Said::Set(pairs)),
            result => result,
        }
    }

    fn set_up_relative(&mut self, value: &[u8]) -> Result<Said, NoMemory>
        ensures text { IsUtf8 value.now → SetsUpRelative self.old.sweeps value.now (told_by P.steps D.told self.old) (told_by P.steps D.told self.new) result }
        ensures no_text { ¬ (IsUtf8 value.now) → (self.new ≡ self.old) × IsRefused result }
        ensures line { IfOk result (λ said. IsTrue (is_line_said said)) }
        ensures sweeps { self.new.sweeps ≡ self.old.sweeps }
    {
        let Ok(path) = str::from_utf8(value) else {
            return relative(self.alloc);
        };
        match self.place.spell(path)? {
            Some(whole) if is_kept(whole.view()) => self.set_up_kept(whole.view()),
            _ => relative(self.alloc),
        }
    }
}

impl<P: Place, D: Desk> Remote for Guarded<P, D> {
    ghost settings = { λ r. codes "directory" ∷ [] };

    ghost calls = { λ r. None };

    fn setting(&self, n: u32) -> Option<&str> {
        self.remote.setting(n)
    }

    fn prepare(&mut self, values: &Values) -> Result<Said, NoMemory>
        requires lines { IsTrue (are_lines values.now) }
        ensures calls { None ≡ called None (Prepare values.now) result }
        ensures settings { ⟦<Guarded<P, D> as Remote>⟧.settings self.new ≡ ⟦<Guarded<P, D> as Remote>⟧.settings self.old }
        ensures text { IfOk result (λ said. IsTrue (is_line_said said)) }
        ensures readied { ReadiesBy self.old.sweeps (first_of values.now) (told_by P.steps D.told self.old) (told_by P.steps D.told self.new) result }
        ensures sweeps { self.new.sweeps ≡ self.old.sweeps }
    {
        match self.remote.prepare(values)? {
            Said::Yes => self.get_ready(),
            Said::No => Ok(Said::No),
            Said::Failure(text) => Ok(Said::Failure(text)),
            Said::Set(pairs) => Ok(Said::Set(pairs)),
        }
    }

    // A relative directory would be another one elsewhere.
    fn initialize(&mut self, values: &Values) -> Result<Said, NoMemory>
        requires lines { IsTrue (are_lines values.now) }
        ensures calls { None ≡ called None (plain (Initialize values.now)) result }
        ensures settings { ⟦<Guarded<P, D> as Remote>⟧.settings self.new ≡ ⟦<Guarded<P, D> as Remote>⟧.settings self.old }
        ensures text { IfOk result (λ said. IsTrue (is_line_said said)) }
        ensures initialized { Initializes self.old.sweeps (first_of values.now) (told_by P.steps D.told self.old) (told_by P.steps D.told self.new) result }
        ensures sweeps { self.new.sweeps ≡ self.old.sweeps }
    {
        let value = first(values);
        if is_relative(value) {
            return self.set_up_relative(value);
        }
        if !is_whole(value) {
            return self.prepare(values);
        }
        match str::from_utf8(value) {
            Ok(directory) => self.set_up(directory, values),
            Err(_) => self.prepare(values),
        }
    }

    fn store(&mut self, key: KeyRef<'_>, file: &str) -> Result<Said, NoMemory>
        requires key { IsTrue (is_sent_key (text_of key)) }
        requires line { IsTrue (not (has_newline file.now)) }
        ensures calls { None ≡ called None (Store (text_of key.entry) file.now) result }
        ensures settings { ⟦<Guarded<P, D> as Remote>⟧.settings self.new ≡ ⟦<Guarded<P, D> as Remote>⟧.settings self.old }
        ensures text { IfOk result (λ said. IsTrue (is_line_said said)) }
        ensures stored { Stores (told_by P.steps D.told self.old) (told_by P.steps D.told self.new) (text_of key.entry) file.now result }
        ensures kept { Keeps self.old self.new }
    {
        let stopped = enter_to_store(self.alloc, &mut self.place, self.remote.directory(), key)?;
        match stopped {
            Some(said) => Ok(said),
            None => self.remote.store(key, file),
        }
    }

    fn retrieve(&mut self, key: KeyRef<'_>, file: &str) -> Result<Said, NoMemory>
        requires key { IsTrue (is_sent_key (text_of key)) }
        requires line { IsTrue (not (has_newline file.now)) }
        ensures calls { None ≡ called None (Retrieve (text_of key.entry) file.now) result }
        ensures settings { ⟦<Guarded<P, D> as Remote>⟧.settings self.new ≡ ⟦<Guarded<P, D> as Remote>⟧.settings self.old }
        ensures text { IfOk result (λ said. IsTrue (is_line_said said)) }
        ensures retrieved { Retrieves (told_by P.steps D.told self.old) (told_by P.steps D.told self.new) (text_of key.entry) file.now result }
        ensures kept { Keeps self.old self.new }
    {
        let stopped = enter(self.alloc, &mut self.place, self.remote.directory())?;
        match stopped {
            Some(said) => Ok(said),
            None => self.remote.retrieve(key, file),
        }
    }

    fn check(&mut self, key: KeyRef<'_>) -> Result<Said, NoMemory>
        requires key { IsTrue (is_sent_key (text_of key)) }
        ensures calls { None ≡ called None (Check (text_of key.entry)) result }
        ensures settings { ⟦<Guarded<P, D> as Remote>⟧.settings self.new ≡ ⟦<Guarded<P, D> as Remote>⟧.settings self.old }
        ensures text { IfOk result (λ said. IsTrue (is_line_said said)) }
        ensures checked { Checks (told_by P.steps D.told self.old) (told_by P.steps D.told self.new) (text_of key.entry) result }
        ensures kept { Keeps self.old self.new }
    {
        let stopped = enter(self.alloc, &mut self.place, self.remote.directory())?;
        if let Some(said) = stopped {
            return Ok(said);
        }
        match self.remote.check(key)? {
            Said::No => self.confirm(Said::No),
            Said::Yes => Ok(Said::Yes),
            Said::Set(pairs) => Ok(Said::Set(pairs)),
            Said::Failure(text) => Ok(Said::Failure(text)),
        }
    }

    fn remove(&mut self, key: KeyRef<'_>) -> Result<Said, NoMemory>
        requires key { IsTrue (is_sent_key (text_of key)) }
        ensures calls { None ≡ called None (Remove (text_of key.entry)) result }
        ensures settings { ⟦<Guarded<P, D> as Remote>⟧.settings self.new ≡ ⟦<Guarded<P, D> as Remote>⟧.settings self.old }
        ensures text { IfOk result (λ said. IsTrue (is_line_said said)) }
        ensures removed { Removes (told_by P.steps D.told self.old) (told_by P.steps D.told self.new) (text_of key.entry) result }
        ensures kept { Keeps self.old self.new }
    {
        let stopped = enter_to_remove(self.alloc, &mut self.place, self.remote.directory(), key)?;
        if let Some(said) = stopped {
            return Ok(said);
        }
        match self.remote.remove(key)? {
            Said::Yes => self.confirm(Said::Yes),
            Said::Set(pairs) => self.confirm(Said::Set(pairs)),
            Said::No => Ok(Said::No),
            Said::Failure(text) => Ok(Said::Failure(text)),
        }
    }
}

impl<P: Place, D: Desk> Describe for Guarded<P, D> {
    ghost use Rattle.dir_remote.specs.Describing.{configs, info_of};
    ghost use Rattle.kit_serve.specs.declared.kit.describe.Availability.TheVariants.{Local};
    ghost use Rattle.kit_serve.specs.declared.kit.describe.Where.TheVariants.{Untold};

    ghost description = { λ r. record { configs = configs; cost = Some 100; availability = Some Local; info = info_of r.directory; whereis = λ _. Untold } };

    fn configs(&self, alloc: Global) -> Result<Vec<Pair>, NoMemory> {
        self.remote.configs(alloc)
    }

    fn cost(&self) -> Option<u64> {
        self.remote.cost()
    }

    fn availability(&self) -> Option<Availability> {
        self.remote.availability()
    }

    fn info(&self, alloc: Global) -> Result<Vec<Pair>, NoMemory> {
        self.remote.info(alloc)
    }

    fn whereis(&self, alloc: Global, key: KeyRef<'_>) -> Result<Where, NoMemory> {
        self.remote.whereis(alloc, key)
    }
}
