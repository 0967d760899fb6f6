// A job's answer as the lines that are printed of it, told one message after the other.
ghost use Rattle.std.specs.Prelude.{◌≡◌, ◌++◌, ◌∷◌, [], None, Some, IfOk, decimal};
ghost use Rattle.annex_model.specs.Messages.{remote_reading};
ghost use Rattle.wire_msg.specs.Shown.{remote_shown, host_shown};
ghost use Rattle.host_core.specs.Moves.{said_by};
ghost use Rattle.info_and_init.specs.Info.Infos.{scope_name, unsupported_line, line_of, field_in, pair_line};
ghost use Rattle.info_and_init.specs.Info.Tellings.{HasTold, HasPrinted};

use ann_key::{Bytes, NoMemory};
use host_talk::request::is_aside;
use std::alloc::Global;
use wire_msg::{HostMsg, RemoteMsg, read_remote};

/// What is printed so far, and the name of a pair whose value comes next.
#[derive(Drop)]
pub(super) struct InfoText {
    alloc: Global,
    printed: Vec<u8>,
    field: Option<Bytes>,
}

fn scope_name(global: bool) -> &'static [u8]
    ensures { result.now ≡ scope_name global }
{
    if global { b"global" } else { b"local" }
}

// The name that the message gives to a value.
fn field_in(alloc: Global, message: &RemoteMsg<'_>) -> Result<Option<Bytes>, NoMemory>
    ensures { IfOk result (λ field. field ≡ field_in (Some (remote_shown message.now))) }
{
    match message {
        RemoteMsg::Infofield(name) => Ok(Some(Bytes::copy(alloc, name)?)),
        _ => Ok(None),
    }
}

impl InfoText {
    /// Nothing is printed yet.
    pub(super) fn new(alloc: Global) -> InfoText
        ensures { result.printed.items ≡ [] }
    {
        InfoText {
            alloc,
            printed: Vec::new(alloc),
            field: None,
        }
    }

    /// All that was printed.
    pub(super) fn into_bytes(self) -> Bytes
        ensures { result ≡ self.printed.items }
    {
        Bytes::from_vec(self.printed)
    }

    /// Prints a label, and what it tells.
    pub(super) fn push_line(&mut self, label: &[u8], told: &[u8]) -> Result<(), NoMemory>
        ensures printed { IfOk result (λ _. HasPrinted ((label.now ++ told.now) ∷ []) self.old self.new) }
        ensures field { self.new.field ≡ self.old.field }
    {
        self.printed.extend_from_slice(label)?;
        self.printed.extend_from_slice(told)?;
        self.printed.push(b'\n')?;
        Ok(())
    }

    // Prints a label, a name and its value, with what stands between the two.
    fn push_pair(
        &mut self,
        label: &[u8],
        name: &[u8],
        between: u8,
        value: &[u8],
    ) -> Result<(), NoMemory>
        ensures printed { IfOk result (λ _. HasPrinted ((label.now ++ name.now ++ between ∷ value.now) ∷ []) self.old self.new) }
        ensures field { self.new.field ≡ self.old.field }
    {
        self.printed.extend_from_slice(label)?;
        self.printed.extend_from_slice(name)?;
        self.printed.push(between)?;
        self.printed.extend_from_slice(value)?;
        self.printed.push(b'\n')?;
        Ok(())
    }

    fn push_number(&mut self, label: &[u8], number: u64) -> Result<(), NoMemory>
        ensures printed { IfOk result (λ _. HasPrinted ((label.now ++ decimal number) ∷ []) self.old self.new) }
        ensures field { self.new.field ≡ self.old.field }
    {
        let digits = format!(in self.alloc; "{number}")?;
        self.push_line(label, digits.as_bytes())
    }

    // That the remote doesn't know the request, by the name of its answers.
    fn push_unsupported(&mut self, question: &HostMsg<'_>) -> Result<(), NoMemory>
        ensures printed { IfOk result (λ _. HasPrinted (unsupported_line (host_shown question.now)) self.old self.new) }
        ensures field { self.new.field ≡ self.old.field }
    {
        match question {
            HostMsg::Listconfigs => self.push_line(b"configs unsupported", b""),
            HostMsg::Getcost => self.push_line(b"cost unsupported", b""),
            HostMsg::Getavailability => self.push_line(b"availability unsupported", b""),
            HostMsg::Getinfo => self.push_line(b"infos unsupported", b""),
            HostMsg::Exportsupported => self.push_line(b"export unsupported", b""),
            HostMsg::Whereis(_) => self.push_line(b"whereis unsupported", b""),
            _ => Ok(()),
        }
    }

    // What the message says by itself.
    fn push_message(
        &mut self,
        question: &HostMsg<'_>,
        message: &RemoteMsg<'_>,
    ) -> Result<(), NoMemory>
        ensures printed { IfOk result (λ _. HasPrinted (line_of (host_shown question.now) (remote_shown message.now)) self.old self.new) }
        ensures field { self.new.field ≡ self.old.field }
    {
        match message {
            RemoteMsg::Config(name, description) => {
                self.push_pair(b"config ", name, b' ', description)
            }
            RemoteMsg::Cost(number) => self.push_number(b"cost ", *number),
            RemoteMsg::Availability(global) => {
                self.push_line(b"availability ", scope_name(*global))
            }
            RemoteMsg::ExportsupportedSuccess => self.push_line(b"export supported", b""),
            RemoteMsg::ExportsupportedFailure => self.push_line(b"export unsupported", b""),
            RemoteMsg::WhereisSuccess(words) => self.push_line(b"whereis ", words),
            RemoteMsg::WhereisFailure => self.push_line(b"whereis failure", b""),
            RemoteMsg::UnsupportedRequest => self.push_unsupported(question),
            _ => Ok(()),
        }
    }

    // The pair whose value the message is.
    fn push_value(&mut self, message: &RemoteMsg<'_>) -> Result<(), NoMemory>
        ensures { IfOk result (λ _. HasPrinted (pair_line self.old.field (Some (remote_shown message.now))) self.old self.new) }
    {
        match (self.field.take(), message) {
            (Some(name), RemoteMsg::Infovalue(value)) => {
                self.push_pair(b"info ", name.view(), b'=', value)
            }
            _ => Ok(()),
        }
    }

    // Prints what the message tells.
    fn tell(&mut self, question: &HostMsg<'_>, message: &RemoteMsg<'_>) -> Result<(), NoMemory>
        ensures { IfOk result (λ _. HasTold (host_shown question.now) (Some (remote_shown message.now) ∷ []) self.old self.new) }
    {
        self.push_message(question, message)?;
        self.push_value(message)?;
        self.field = field_in(self.alloc, message)?;
        Ok(())
    }

    /// The next answer begins.
    pub(super) fn begin(&mut self)
        ensures printed { self.new.printed.items ≡ self.old.printed.items }
        ensures field { self.new.field ≡ None }
    {
        self.field = None;
    }

    /// Prints what the next line of the answer tells.
    pub(super) fn hear(&mut self, question: &HostMsg<'_>, line: &[u8]) -> Result<(), NoMemory>
        ensures { IfOk result (λ _. HasTold (host_shown question.now) (said_by (remote_reading line.now)) self.old self.new) }
    {
        match read_remote(line) {
            Some(message) if is_aside(&message) => Ok(()),
            Some(message) => self.tell(question, &message),
            None => {
                self.field = None;
                Ok(())
            }
        }
    }
}
