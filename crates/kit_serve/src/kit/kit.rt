ghost use Rattle.std.specs.Prelude.{◌≡◌, ◌&&◌, ◌||◌, ◌<◌, ◌^◌, ◌+◌, ◌++◌, ◌∷◌, [], not, codes, List, Option, Some, None, false, length, map, slice_get, IsTrue, true, ℕ, IfOk, IsOkAnd, OnOk, OnErr};
ghost use Rattle.annex_model.specs.Lines.{has_newline};
ghost use Rattle.annex_model.specs.Messages.{Transfer, Checkpresent, Remove, Error, is_sent_key, IsAskable, IsSayable, remote_line};
ghost use Rattle.ann_key.specs.KeyRefs.{text_of};
ghost use Rattle.wire_msg.specs.Shown.{host_shown, remote_shown};
ghost use Rattle.std.specs.Borrow.{Lends, sem};
ghost use Rattle.kit_serve.specs.contracts.kit.kit.Kit.{the_row};
ghost use Rattle.kit_serve.specs.declared.kit.call.Said.TheVariants.{Failure};
ghost use Rattle.kit_serve.specs.declared.kit.call.Asked.TheVariants.{Prepare as AskPrepare};
ghost use Rattle.kit_serve.specs.declared.kit.kit.Stage.TheVariants.{Readying};
ghost use Rattle.kit_serve.specs.Kit.Calls.{called, are_lines, is_line_said};
ghost use Rattle.kit_serve.specs.Kit.Kits.{has_line_fields, readying, work_due, final_line, final_lines, is_prepare, is_yes, transfer_asked, Asks};
ghost use Rattle.kit_serve.specs.Kit.Stages.{IsSound, Answers, AnswersAt, Tries, TriesAt, WorksOn, Follows, Steps, Stops};
ghost use Rattle.kit_serve.specs.Kit.Stages.{prepare_of, ready_stage, stage_after, stage_after_request, stage_after_value, is_free, is_last};

use crate::kit::call::Said;
use crate::kit::finals;
use crate::kit::lists::{Lines, Values};
use crate::kit::remote::Remote;
use ann_key::{Bytes, KeyRef, NoMemory};
use std::alloc::Global;
use std::marker::Model;
use std::{mem, str};
use wire_msg::{HostMsg, RemoteMsg};

/// What a kit says to one message: lines, each without its byte 10, and whether it is over.
#[derive(Drop)]
pub struct Step {
    pub say: Lines,
    pub over: bool,
}

// Where a kit stands between two messages.
#[derive(Drop)]
enum Stage {
    /// Any request may come.
    Waiting,
    /// A value is awaited, for PREPARE or for INITREMOTE.
    Readying { by_prepare: bool, values: Values },
    /// It says nothing any more.
    Over,
}

/// A remote, served to a host message by message. Each request is answered before the next one is taken.
///
/// Contracts see of it the remote, whether it is prepared, and where it stands; and how that follows from what it heard.
#[derive(Drop)]
pub struct Kit<R: Remote> {
    alloc: Global,
    remote: R,
    prepared: bool,
    stage: Stage,
}

impl<R: Remote> Model for Kit<R> {
    ghost use Rattle.kit_serve.specs.Kit.Stages.{KitValue, IsSound};

    ghost Value = { KitValue R };

    ghost view = { λ k. record { remote = k.remote; prepared = k.prepared; stage = k.stage } };

    ghost invariant = { λ k. IsSound k.stage };
}

// The request for which the settings are asked.
fn prepare_request(by_prepare: bool) -> HostMsg<'static>
    ensures message { host_shown result ≡ prepare_of by_prepare }
    ensures lines { IsTrue (has_line_fields (host_shown result)) }
{
    if by_prepare {
        HostMsg::Prepare
    } else {
        HostMsg::Initremote
    }
}

fn no_values(alloc: Global) -> Values
    ensures { result ≡ [] }
{
    Values::new(Vec::new(alloc))
}

// The values, and this one after them.
fn one_more(alloc: Global, values: Values, value: &[u8]) -> Result<Values, NoMemory>
    ensures { IfOk result (λ more. more ≡ values ++ value.now ∷ []) }
{
    let copy = Bytes::copy(alloc, value)?;
    let mut values = values;
    values.push(copy)?;
    Ok(values)
}

// No line.
fn silence(alloc: Global) -> Lines
    ensures { result ≡ [] }
{
    Lines::new(Vec::new(alloc))
}

// Has the remote get ready, by the call of the request.
fn ask_ready<R: Remote>(remote: &mut R, by_prepare: bool, values: &Values) -> Result<Said, NoMemory>
    requires { IsTrue (are_lines values.now) }
    ensures calls { R.calls remote.new ≡ called (R.calls remote.old) (AskPrepare values.now) result }
    ensures settings { R.settings remote.new ≡ R.settings remote.old }
    ensures text { IfOk result (λ said. IsTrue (is_line_said said)) }
{
    if by_prepare {
        remote.prepare(values)
    } else {
        remote.initialize(values)
    }
}

fn ask_transfer<R: Remote>(
    remote: &mut R,
    store: bool,
    key: KeyRef<'_>,
    file: &str,
) -> Result<Said, NoMemory>
    requires key { IsTrue (is_sent_key (text_of key)) }
    requires line { IsTrue (not (has_newline file.now)) }
    ensures calls { R.calls remote.new ≡ called (R.calls remote.old) (transfer_asked store (text_of key.entry) file.now) result }
    ensures settings { R.settings remote.new ≡ R.settings remote.old }
    ensures text { IfOk result (λ said. IsTrue (is_line_said said)) }
{
    if store {
        remote.store(key, file)
    } else {
        remote.retrieve(key, file)
    }
}

impl<R: Remote> Kit<R> {
    // What stood before is let go by a call, here for all: what lets a stage go goes by its kinds.
    fn enter(&mut self, stage: Stage)
        requires { IsSound stage }
        ensures { self.new ≡ record self.old { stage = stage } }
    {
        drop(mem::replace(&mut self.stage, stage));
    }

    // Says the lines that the remote's word makes of the request, and lets the word go, so that no caller has to. A yes to
    // PREPARE leaves the kit prepared.
    fn finish(&mut self, request: HostMsg<'_>, said: Said) -> Result<Lines, NoMemory>
        requires askable { IsAskable (host_shown request) }
        requires lines { IsTrue (has_line_fields (host_shown request)) }
        requires text { IsTrue (is_line_said said) }
        ensures ok { IfOk result (λ say. say ≡ map remote_line (final_lines (Some (host_shown request.entry)) said)) }
        ensures after { OnOk result (self.new ≡ record self.old { prepared = self.old.prepared || (is_prepare (Some (host_shown request.entry)) && is_yes said); stage = Stage.Waiting }) }
        ensures err { OnErr result (self.new ≡ self.old) }
        ensures lines { IfOk result (λ say. IsTrue (are_lines say)) }
    {
        let lines = finals::final_lines(self.alloc, request, &said);
        let prepares = matches!(request, HostMsg::Prepare)
            && matches!(said, Said::Yes | Said::Set(_));
        drop(said);
        let say = lines?;
        if prepares {
            self.prepared = true;
        }
        self.enter(Stage::Waiting);
        Ok(say)
    }

    // A line that needs no call of the remote.
    fn say(&mut self, message: RemoteMsg<'_>) -> Result<Lines, NoMemory>
        requires sayable { IsSayable (remote_shown message) }
        requires line { has_newline (remote_line (remote_shown message)) ≡ false }
        ensures ok { IfOk result (λ say. say ≡ remote_line (remote_shown message.entry) ∷ []) }
        ensures stage { OnOk result (self.new ≡ record self.old { stage = Stage.Waiting }) }
        ensures err { OnErr result (self.new ≡ self.old) }
        ensures lines { IfOk result (λ say. IsTrue (are_lines say)) }
    {
        let say = finals::one_line(self.alloc, &message)?;
        self.enter(Stage::Waiting);
        Ok(say)
    }

    // Nothing is said to the message.
    fn pass_over(&mut self) -> Lines
        ensures nothing { result ≡ [] }
        ensures stage { self.new ≡ record self.old { stage = Stage.Waiting } }
    {
        self.enter(Stage::Waiting);
        silence(self.alloc)
    }

    // The message can't stand here, and nothing more is said.
    fn unexpected(&self) -> Result<Lines, NoMemory>
        ensures line { IfOk result (λ say. say ≡ remote_line (Error (codes "unexpected message")) ∷ []) }
        ensures lines { IfOk result (λ say. IsTrue (are_lines say)) }
    {
        finals::one_line(self.alloc, &RemoteMsg::Error(b"unexpected message"))
    }

    // The remote gets ready, with all values.
    fn prepare(&mut self, by_prepare: bool, values: &Values) -> Result<Lines, NoMemory>
        requires { IsTrue (are_lines values.now) }
        ensures ok { IfOk result (Answers R.calls self.old self.new (Asks (AskPrepare values.now)) (Some (prepare_of by_prepare))) }
        ensures stage { OnOk result (self.new.stage ≡ Stage.Waiting) }
        ensures err { OnErr result (Tries R.calls self.old self.new (Asks (AskPrepare values.now)) × (self.new.stage ≡ self.old.stage)) }
        ensures settings { R.settings self.new.remote ≡ R.settings self.old.remote }
        ensures lines { IfOk result (λ say. IsTrue (are_lines say)) }
    {
        let said = ask_ready(&mut self.remote, by_prepare, values)?;
        self.finish(prepare_request(by_prepare), said)
    }

    // Asks for the next setting; after the last one the remote gets ready.
    fn ready(&mut self, by_prepare: bool, values: Values) -> Result<Lines, NoMemory>
        requires small { length values < 2 ^ 32 }
        requires lines { IsTrue (are_lines values) }
        ensures ok { IfOk result (Answers R.calls self.old self.new (readying (slice_get (R.settings self.old.remote) (length values)) values) (Some (prepare_of by_prepare))) }
        ensures stage { OnOk result (self.new.stage ≡ ready_stage (slice_get (R.settings self.old.remote) (length values)) by_prepare values) }
        ensures err { OnErr result (Tries R.calls self.old self.new (readying (slice_get (R.settings self.old.remote) (length values)) values) × (self.new.stage ≡ self.old.stage)) }
        ensures settings { R.settings self.new.remote ≡ R.settings self.old.remote }
        ensures lines { IfOk result (λ say. IsTrue (are_lines say)) }
    {
        match self.remote.setting(values.len() as u32) {
            Some(name) => {
                let say = finals::one_line(self.alloc, &RemoteMsg::Getconfig(name.as_bytes()))?;
                self.enter(Stage::Readying { by_prepare, values });
                Ok(say)
            }
            None => self.prepare(by_prepare, &values),
        }
    }

    // The line of a request that isn't worked on, for this reason.
    fn refuse(&mut self, request: HostMsg<'_>, text: &'static [u8]) -> Result<Lines, NoMemory>
        requires askable { IsAskable (host_shown request) }
        requires lines { IsTrue (has_line_fields (host_shown request)) }
        requires text { IsTrue (not (has_newline text.now)) }
        ensures ok { IfOk result (λ say. say ≡ remote_line (final_line (Some (host_shown request.entry)) (Failure text.entry.now)) ∷ []) }
        ensures stage { OnOk result (self.new ≡ record self.old { stage = Stage.Waiting }) }
        ensures err { OnErr result (self.new ≡ self.old) }
        ensures lines { IfOk result (λ say. IsTrue (are_lines say)) }
    {
        self.say(finals::failed(request, text))
    }

    fn transfer(&mut self, store: bool, key: KeyRef<'_>, file: &[u8]) -> Result<Lines, NoMemory>
        requires askable { IsTrue (is_sent_key (text_of key)) }
        requires key { IsTrue (not (has_newline (text_of key))) }
        requires line { IsTrue (not (has_newline file.now)) }
        ensures ok { IfOk result (WorksOn R.calls (Transfer store (text_of key.entry) file.now) self.old self.new) }
        ensures stage { OnOk result (self.new.stage ≡ Stage.Waiting) }
        ensures err { OnErr result (Tries R.calls self.old self.new (work_due None [] self.old.prepared (Transfer store (text_of key.entry) file.now)) × (self.new.stage ≡ self.old.stage)) }
        ensures settings { R.settings self.new.remote ≡ R.settings self.old.remote }
        ensures lines { IfOk result (λ say. IsTrue (are_lines say)) }
    {
        let request = HostMsg::Transfer(store, key, file);
        if !self.prepared {
            return self.refuse(request, b"not prepared");
        }
        let Ok(file) = str::from_utf8(file) else {
            return self.refuse(request, b"not text");
        };
        let said = ask_transfer(&mut self.remote, store, key, file)?;
        self.finish(request, said)
    }

    fn check(&mut self, key: KeyRef<'_>) -> Result<Lines, NoMemory>
        requires askable { IsTrue (is_sent_key (text_of key)) }
        requires key { IsTrue (not (has_newline (text_of key))) }
        ensures ok { IfOk result (WorksOn R.calls (Checkpresent (text_of key.entry)) self.old self.new) }
        ensures stage { OnOk result (self.new.stage ≡ Stage.Waiting) }
        ensures err { OnErr result (Tries R.calls self.old self.new (work_due None [] self.old.prepared (Checkpresent (text_of key.entry))) × (self.new.stage ≡ self.old.stage)) }
        ensures settings { R.settings self.new.remote ≡ R.settings self.old.remote }
        ensures lines { IfOk result (λ say. IsTrue (are_lines say)) }
    {
        let request = HostMsg::Checkpresent(key);
        if !self.prepared {
            return self.refuse(request, b"not prepared");
        }
        let said = self.remote.check(key)?;
        self.finish(request, said)
    }

    fn remove(&mut self, key: KeyRef<'_>) -> Result<Lines, NoMemory>
        requires askable { IsTrue (is_sent_key (text_of key)) }
        requires key { IsTrue (not (has_newline (text_of key))) }
        ensures ok { IfOk result (WorksOn R.calls (Remove (text_of key.entry)) self.old self.new) }
        ensures stage { OnOk result (self.new.stage ≡ Stage.Waiting) }
        ensures err { OnErr result (Tries R.calls self.old self.new (work_due None [] self.old.prepared (Remove (text_of key.entry))) × (self.new.stage ≡ self.old.stage)) }
        ensures settings { R.settings self.new.remote ≡ R.settings self.old.remote }
        ensures lines { IfOk result (λ say. IsTrue (are_lines say)) }
    {
        let request = HostMsg::Remove(key);
        if !self.prepared {
            return self.refuse(request, b"not prepared");
        }
        let said = self.remote.remove(key)?;
        self.finish(request, said)
    }
}

impl<R: Remote> Kit<R> {
    // What any message gets while no value is awaited.
    fn request(&mut self, message: HostMsg<'_>) -> Result<Lines, NoMemory>
        requires askable { IsAskable (host_shown message) }
        requires lines { IsTrue (has_line_fields (host_shown message)) }
        requires over { self.old.stage ≡ Stage.Over }
        ensures ok { IfOk result (AnswersAt R.calls R.settings Stage.Waiting (host_shown message.entry) self.old self.new) }
        ensures stage { OnOk result (self.new.stage ≡ stage_after_request (R.settings self.old.remote) (host_shown message.entry)) }
        ensures err { OnErr result (TriesAt R.calls R.settings Stage.Waiting (host_shown message.entry) self.old self.new × (self.new.stage ≡ Stage.Over)) }
        ensures settings { R.settings self.new.remote ≡ R.settings self.old.remote }
        ensures lines { IfOk result (λ say. IsTrue (are_lines say)) }
    {
        match message {
            HostMsg::Extensions(_) => self.say(RemoteMsg::Extensions(b"")),
            HostMsg::Prepare => self.ready(true, no_values(self.alloc)),
            HostMsg::Initremote => self.ready(false, no_values(self.alloc)),
            HostMsg::Transfer(store, key, file) => self.transfer(store, key, file),
            HostMsg::Checkpresent(key) => self.check(key),
            HostMsg::Remove(key) => self.remove(key),
            HostMsg::Listconfigs
            | HostMsg::Getcost
            | HostMsg::Getavailability
            | HostMsg::Getinfo
            | HostMsg::Whereis(_)
            | HostMsg::Exportsupported
            | HostMsg::Transferexport(_, _, _)
            | HostMsg::Checkpresentexport(_)
            | HostMsg::Removeexport(_)
            | HostMsg::Renameexport(_, _) => self.say(RemoteMsg::UnsupportedRequest),
            HostMsg::Export(_) => Ok(self.pass_over()),
            HostMsg::Value(_) | HostMsg::Creds(_, _) => self.unexpected(),
            HostMsg::Error(_) => Ok(silence(self.alloc)),
        }
    }

    // What any message gets while a value is awaited.
    fn reply(
        &mut self,
        by_prepare: bool,
        values: Values,
        message: HostMsg<'_>,
    ) -> Result<Lines, NoMemory>
        requires lines { IsTrue (has_line_fields (host_shown message)) }
        requires over { self.old.stage ≡ Stage.Over }
        requires sound { (length values + 1 < 2 ^ 32) × IsTrue (are_lines values) }
        ensures ok { IfOk result (AnswersAt R.calls R.settings (Readying by_prepare values) (host_shown message.entry) self.old self.new) }
        ensures stage { OnOk result (self.new.stage ≡ stage_after_value (R.settings self.old.remote) by_prepare values (host_shown message.entry)) }
        ensures err { OnErr result (TriesAt R.calls R.settings (Readying by_prepare values) (host_shown message.entry) self.old self.new × (self.new.stage ≡ Stage.Over)) }
        ensures settings { R.settings self.new.remote ≡ R.settings self.old.remote }
        ensures lines { IfOk result (λ say. IsTrue (are_lines say)) }
    {
        match message {
            HostMsg::Value(value) => {
                let values = one_more(self.alloc, values, value)?;
                self.ready(by_prepare, values)
            }
            HostMsg::Error(_) => {
                drop(values);
                Ok(silence(self.alloc))
            }
            _ => {
                drop(values);
                self.unexpected()
            }
        }
    }

    // Whatever is not said at the end is over.
    fn answer(&mut self, message: HostMsg<'_>) -> Result<Lines, NoMemory>
        requires askable { IsAskable (host_shown message) }
        requires lines { IsTrue (has_line_fields (host_shown message)) }
        ensures ok { IfOk result (AnswersAt R.calls R.settings self.old.stage (host_shown message.entry) self.old self.new) }
        ensures stage { OnOk result (self.new.stage ≡ stage_after (R.settings self.old.remote) self.old.stage (host_shown message.entry)) }
        ensures err { OnErr result (TriesAt R.calls R.settings self.old.stage (host_shown message.entry) self.old self.new × (self.new.stage ≡ Stage.Over)) }
        ensures settings { R.settings self.new.remote ≡ R.settings self.old.remote }
        ensures lines { IfOk result (λ say. IsTrue (are_lines say)) }
    {
        match mem::replace(&mut self.stage, Stage::Over) {
            Stage::Waiting => self.request(message),
            Stage::Readying { by_prepare, values } => self.reply(by_prepare, values, message),
            Stage::Over => Ok(silence(self.alloc)),
        }
    }
}

impl<R: Remote> Kit<R> {
    /// A kit that has heard nothing. It takes no memory.
    pub fn new(alloc: Global, remote: R) -> Kit<R>
        ensures remote { result.remote ≡ remote }
        ensures follows { (settings : List (List ℕ)) → Follows settings result [] }
    {
        Kit {
            alloc,
            remote,
            prepared: false,
            stage: Stage::Waiting,
        }
    }

    fn is_over(&self) -> bool
        ensures { result ≡ is_last self.now.stage }
    {
        matches!(self.stage, Stage::Over)
    }

    /// Whether any request may come: it awaits no value, and isn't over.
    pub fn is_free(&self) -> bool
        ensures { result ≡ is_free self.now.stage }
    {
        matches!(self.stage, Stage::Waiting)
    }

    /// The remote, lent. It takes no memory.
    pub fn remote(&self) -> &R
        ensures { result.now ≡ self.now.remote }
    {
        &self.remote
    }

    /// The remote, lent to be changed. All else of the kit stays. It takes no memory.
    pub fn remote_mut(&mut self) -> &mut R
        ensures* lends { sem 𝓛 (Lends (the_row R.row R.Remote) R.row self.entry result (λ r. record self.old { remote = r })) }
        ensures shows { result.now ≡ self.old.remote }
    {
        &mut self.remote
    }

    /// What is said to the next message. No line ends in a field of it, and each is of its class. After `NoMemory` the kit is
    /// over: it says nothing more, and asks nothing of its remote.
    pub fn step(&mut self, message: &HostMsg<'_>) -> Result<Step, NoMemory>
        requires askable { IsAskable (host_shown message.now) }
        requires lines { IsTrue (has_line_fields (host_shown message.now)) }
        ensures step { IfOk result (λ s. Steps R.calls (R.settings self.old.remote) self.old self.new (host_shown message.now) s.say s.over) }
        ensures lines { IfOk result (λ s. IsTrue (are_lines s.say)) }
        ensures over { IfOk result (λ s. s.over ≡ is_last self.new.stage) }
        ensures stopped { OnErr result (Stops R.calls (R.settings self.old.remote) self.old self.new (host_shown message.now)) }
        ensures silent { is_last self.old.stage ≡ true → IsOkAnd result (λ s. (s.say ≡ []) × (s.over ≡ true)) × (self.new ≡ self.old) }
        ensures settings { R.settings self.new.remote ≡ R.settings self.old.remote }
    {
        if self.is_over() {
            return Ok(Step {
                say: silence(self.alloc),
                over: true,
            });
        }
        let say = self.answer(*message)?;
        Ok(Step {
            say,
            over: self.is_over(),
        })
    }

    /// The remote. It takes no memory.
    pub fn close(self) -> R
        ensures { result ≡ self.remote }
    {
        let Kit {
            alloc: _,
            remote,
            prepared: _,
            stage: _,
        } = self;
        remote
    }
}
