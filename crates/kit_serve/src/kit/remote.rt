ghost use Rattle.std.specs.Prelude.{◌≡◌, ◌<◌, ◌^◌, ℕ, not, List, Option, length, slice_get, IsTrue, IfOk};
ghost use Rattle.std.specs.Option.{option_copied};
ghost use Rattle.ann_key.specs.KeyRefs.{text_of};
ghost use Rattle.annex_model.specs.Lines.{has_newline};
ghost use Rattle.annex_model.specs.Messages.{is_sent_key};
ghost use Rattle.kit_serve.specs.declared.kit.call.Asked.TheVariants.{Initialize, Prepare, Store, Retrieve, Check, Remove};
ghost use Rattle.kit_serve.specs.declared.kit.call.Call.{Call};
ghost use Rattle.kit_serve.specs.Kit.Calls.{called, plain, are_lines, is_line_said};

use crate::kit::call::Said;
use crate::kit::lists::Values;
use ann_key::{KeyRef, NoMemory};

/// What keeps content by key. A key that it is handed holds no space, and no file and no value holds a line end.
///
/// A remote may tell its calls: each of the five that answers a word adds itself at the end of the list. A call that finds no
/// memory adds nothing.
pub trait Remote {
    // the names of its settings, in the order in which they are asked for
    ghost settings: { Self → List (List ℕ) };

    // the calls made of it so far, where it tells them
    ghost calls: { Self → Option (List Call) };

    /// The name of the setting of that number, from 0; None ends them. A name holds no line end. The value of each is
    /// asked of the host before `prepare`.
    fn setting(&self, n: u32) -> Option<&str>
        ensures name { option_copied result ≡ slice_get (settings self.now) n }
        ensures few { length (settings self.now) < 2 ^ 32 }
        ensures lines { IsTrue (are_lines (settings self.now)) };

    /// Gets ready, with the values of the settings in their order. A setting that the host doesn't know has an empty value.
    fn prepare(&mut self, values: &Values) -> Result<Said, NoMemory>
        requires lines { IsTrue (are_lines values.now) }
        ensures calls { calls self.new ≡ called (calls self.old) (Prepare values.now) result }
        ensures settings { settings self.new ≡ settings self.old }
        ensures text { IfOk result (λ said. IsTrue (is_line_said said)) };

    /// Gets ready at INITREMOTE, as `prepare` does at PREPARE: the user sets the remote up, or changes its settings. Lists of
    /// calls tell it as a `prepare`. A remote that needs no difference leaves it out.
    fn initialize(&mut self, values: &Values) -> Result<Said, NoMemory>
        requires lines { IsTrue (are_lines values.now) }
        ensures calls { calls self.new ≡ called (calls self.old) (plain (Initialize values.now)) result }
        ensures settings { settings self.new ≡ settings self.old }
        ensures text { IfOk result (λ said. IsTrue (is_line_said said)) }
    {
        self.prepare(values)
    }

    /// Stores the content of the file under the key.
    fn store(&mut self, key: KeyRef<'_>, file: &str) -> Result<Said, NoMemory>
        requires key { IsTrue (is_sent_key (text_of key)) }
        requires line { IsTrue (not (has_newline file.now)) }
        ensures calls { calls self.new ≡ called (calls self.old) (Store (text_of key.entry) file.now) result }
        ensures settings { settings self.new ≡ settings self.old }
        ensures text { IfOk result (λ said. IsTrue (is_line_said said)) };

    /// Writes the content of the key into the file.
    fn retrieve(&mut self, key: KeyRef<'_>, file: &str) -> Result<Said, NoMemory>
        requires key { IsTrue (is_sent_key (text_of key)) }
        requires line { IsTrue (not (has_newline file.now)) }
        ensures calls { calls self.new ≡ called (calls self.old) (Retrieve (text_of key.entry) file.now) result }
        ensures settings { settings self.new ≡ settings self.old }
        ensures text { IfOk result (λ said. IsTrue (is_line_said said)) };

    /// Whether it has the content of the key.
    fn check(&mut self, key: KeyRef<'_>) -> Result<Said, NoMemory>
        requires key { IsTrue (is_sent_key (text_of key)) }
        ensures calls { calls self.new ≡ called (calls self.old) (Check (text_of key.entry)) result }
        ensures settings { settings self.new ≡ settings self.old }
        ensures text { IfOk result (λ said. IsTrue (is_line_said said)) };

    /// Removes the content of the key. It is `Yes` too where there was none.
    fn remove(&mut self, key: KeyRef<'_>) -> Result<Said, NoMemory>
        requires key { IsTrue (is_sent_key (text_of key)) }
        ensures calls { calls self.new ≡ called (calls self.old) (Remove (text_of key.entry)) result }
        ensures settings { settings self.new ≡ settings self.old }
        ensures text { IfOk result (λ said. IsTrue (is_line_said said)) };
}
