// The steps of a line of the host.
ghost use Rattle.std.specs.Prelude.{◌≡◌, ◌||◌, ◌+◌, ◌++◌, ◌∷◌, [], IfOk, IfSome, OnOk, OnErr, Some, None, true, false, length, map, option_map, slice_get};
ghost use Rattle.annex_model.specs.Messages.{Getconfig, host_reading, remote_line};
ghost use Rattle.wire_msg.specs.Shown.{host_shown};
ghost use Rattle.kit_async_model.specs.declared.entry.Entry.TheVariants.{Heard, Say};
ghost use Rattle.kit_async_model.specs.declared.hearing.Hearing.TheVariants.{Foul, Unexpected, Aside, Asks, Replies};
ghost use Rattle.kit_async_model.specs.Books.{Took, BookIsAsBefore, AreApart, IsRequest, IsValue};
ghost use Rattle.kit_async_model.specs.Events.{hear_step};
ghost use Rattle.kit_async_model.specs.Hearings.{hearing_of, value_told};
ghost use Rattle.kit_async_model.specs.Jobs.{request_of, job_line, lines_in, is_awaiting};
ghost use Rattle.kit_async_model.specs.Legality.{may_hear, is_some_line};
ghost use Rattle.kit_async_model.specs.Standings.{starts_tags};
ghost use Rattle.kit_async_core.specs.Steps.{AsksNext};

use crate::book::{Book, waiting};
use crate::lines::{all_wired, begin_lines, room_for, say_all};
use ann_key::{Bytes, NoMemory};
use kit_async_model::due::{has_async, job_line};
use kit_async_model::hearing::{Hearing, hearing_of, text_in};
use kit_async_model::jobs::place_of;
use kit_async_model::{Entries, Entry, Job, Reply, Setup};
use kit_serve::kit::Values;
use std::alloc::Global;
use std::collections::VecDeque;
use wire_msg::{HostMsg, RemoteMsg, read_host, write_remote};

// EXTENSIONS with ASYNC among its names.
fn starts_tags(request: Option<HostMsg<'_>>) -> bool
    ensures { result ≡ starts_tags (option_map host_shown request.entry) }
{
    match request {
        Some(HostMsg::Extensions(names)) => has_async(names),
        _ => false,
    }
}

// The value that the message tells.
fn value_told(text: &[u8]) -> &[u8]
    ensures { result.now ≡ value_told (host_reading text.now) }
{
    match read_host(text) {
        Some(HostMsg::Value(value)) => value,
        _ => b"",
    }
}

// The line that asks for the setting of that number, without a tag; none where there is no such setting.
fn ask_for(alloc: Global, setup: &Setup, setting: usize) -> Result<Option<Bytes>, NoMemory>
    ensures { IfOk result (λ line. line ≡ option_map (λ name. remote_line (Getconfig name)) (slice_get setup.now.settings setting)) }
{
    match setup.name(setting) {
        Some(name) => Ok(Some(write_remote(alloc, &RemoteMsg::Getconfig(name))?)),
        None => Ok(None),
    }
}

// The line as it stands on the wire.
fn wired(alloc: Global, number: u64, text: Option<Bytes>) -> Result<Option<Bytes>, NoMemory>
    ensures { IfOk result (λ line. line ≡ option_map (job_line number) text) }
{
    match text {
        Some(text) => Ok(Some(job_line(alloc, number, text)?)),
        None => Ok(None),
    }
}

// A line was heard and these were said for that job, which are to be written.
fn note_all_said(
    alloc: Global,
    journal: &mut Entries,
    unwritten: &mut VecDeque<Bytes>,
    line: Bytes,
    number: u64,
    said: Vec<Bytes>,
    more: usize,
) -> Result<(), NoMemory>
    ensures kept { journal.new.kept ≡ journal.old.kept }
    ensures journal { OnOk result (journal.new.entries ≡ journal.old.entries ++ Heard line ∷ map (λ line. Say number line) said.items) }
    ensures unwritten { OnOk result (unwritten.new.items ≡ unwritten.old.items ++ said.items) }
    ensures room { OnOk result (journal.new.room ≡ journal.old.room + length said.items + more) }
    ensures err { OnErr result ((journal.new ≡ journal.old) × (unwritten.new.items ≡ unwritten.old.items)) }
{
    let Some(more) = more.checked_add(1) else {
        return Err(NoMemory);
    };
    let room = room_for(said.len(), more)?;
    begin_lines(alloc, journal, unwritten, said.as_slice(), room)?;
    journal.push(Entry::Heard { line });
    say_all(journal, number, said);
    Ok(())
}

// A line was heard and one was said for that job, which is to be written.
fn note_said(
    alloc: Global,
    journal: &mut Entries,
    unwritten: &mut VecDeque<Bytes>,
    line: Bytes,
    number: u64,
    said: Bytes,
    more: usize,
) -> Result<(), NoMemory>
    ensures kept { journal.new.kept ≡ journal.old.kept }
    ensures journal { OnOk result (journal.new.entries ≡ journal.old.entries ++ Heard line ∷ Say number said ∷ []) }
    ensures unwritten { OnOk result (unwritten.new.items ≡ unwritten.old.items ++ said ∷ []) }
    ensures room { OnOk result (journal.new.room ≡ journal.old.room + 1 + more) }
    ensures err { OnErr result ((journal.new ≡ journal.old) × (unwritten.new.items ≡ unwritten.old.items)) }
{
    let copy = Bytes::copy(alloc, said.view())?;
    let Some(room) = more.checked_add(3) else {
        return Err(NoMemory);
    };
    unwritten.reserve(1)?;
    journal.take_room(room)?;
    journal.push(Entry::Heard { line });
    journal.push(Entry::Say {
        job: number,
        line: said,
    });
    unwritten.push_back_reserved(copy);
    Ok(())
}

// A line was heard, and nothing was said.
fn note_heard(journal: &mut Entries, line: Bytes, more: usize) -> Result<(), NoMemory>
    ensures kept { journal.new.kept ≡ journal.old.kept }
    ensures journal { OnOk result (journal.new.entries ≡ journal.old.entries ++ Heard line ∷ []) }
    ensures room { OnOk result (journal.new.room ≡ journal.old.room + more) }
    ensures err { OnErr result (journal.new ≡ journal.old) }
{
    let Some(room) = more.checked_add(1) else {
        return Err(NoMemory);
    };
    journal.take_room(room)?;
    journal.push(Entry::Heard { line });
    Ok(())
}

// Requests.
impl Book {
    // Whether lines are tagged from the job's request on.
    fn tags_with(&self, job: &Job) -> bool
        ensures { result ≡ (self.now.stands.tagged || starts_tags (request_of job.now)) }
    {
        self.tagged || starts_tags(job.request())
    }

    // Nothing is said to it yet: the job is open, and a remote is to work on it.
    fn begin(&mut self, setup: &Setup, line: Bytes, job: Job) -> Result<Reply, NoMemory>
        requires may { may_hear setup.now self.old.stands ≡ true }
        requires is { IsRequest setup.now self.old.stands line job }
        requires silent { lines_in setup.now self.old.stands.told job ≡ [] }
        ensures kept { self.new.kept ≡ self.old.kept }
        ensures ok { IfOk result (Took setup.now self.old self.new (hear_step setup.now self.old.stands line)) }
        ensures err { OnErr result (BookIsAsBefore self.old self.new) }
    {
        let calls = 3 * job.most_calls(setup) as usize;
        let tagged = self.tags_with(&job);
        self.jobs.reserve(1)?;
        note_heard(&mut self.journal, line, calls)?;
        self.tagged = tagged;
        self.jobs.push_reserved(job);
        Ok(Reply::Done)
    }

    // The first setting is asked for, and the job is open.
    fn ask(
        &mut self,
        setup: &Setup,
        line: Bytes,
        job: Job,
        said: Vec<Bytes>,
    ) -> Result<Reply, NoMemory>
        requires may { may_hear setup.now self.old.stands ≡ true }
        requires is { IsRequest setup.now self.old.stands line job }
        requires said { map (job_line job.number) (lines_in setup.now self.old.stands.told job) ≡ said.items }
        requires some { is_some_line said.items ≡ true }
        requires awaits { is_awaiting setup.now job ≡ true }
        ensures kept { self.new.kept ≡ self.old.kept }
        ensures ok { IfOk result (Took setup.now self.old self.new (hear_step setup.now self.old.stands line)) }
        ensures err { OnErr result (BookIsAsBefore self.old self.new) }
    {
        let calls = 3 * job.most_calls(setup) as usize;
        let tagged = self.tags_with(&job);
        let number = job.number;
        self.jobs.reserve(1)?;
        note_all_said(
            self.alloc,
            &mut self.journal,
            &mut self.unwritten,
            line,
            number,
            said,
            calls,
        )?;
        self.tagged = tagged;
        self.jobs.push_reserved(job);
        Ok(Reply::Done)
    }

    // It is answered at once, and no job is left open.
    fn answer_at_once(
        &mut self,
        setup: &Setup,
        line: Bytes,
        job: &Job,
        said: Vec<Bytes>,
    ) -> Result<Reply, NoMemory>
        requires may { may_hear setup.now self.old.stands ≡ true }
        requires is { IsRequest setup.now self.old.stands line job.now }
        requires said { map (job_line job.now.number) (lines_in setup.now self.old.stands.told job.now) ≡ said.items }
        requires some { is_some_line said.items ≡ true }
        requires awaits { is_awaiting setup.now job.now ≡ false }
        ensures kept { self.new.kept ≡ self.old.kept }
        ensures ok { IfOk result (Took setup.now self.old self.new (hear_step setup.now self.old.stands line)) }
        ensures err { OnErr result (BookIsAsBefore self.old self.new) }
    {
        let tagged = self.tags_with(job);
        note_all_said(
            self.alloc,
            &mut self.journal,
            &mut self.unwritten,
            line,
            job.number,
            said,
            0,
        )?;
        self.tagged = tagged;
        Ok(Reply::Done)
    }

    fn hear_request(&mut self, setup: &Setup, line: Bytes, number: u64) -> Result<Reply, NoMemory>
        requires may { may_hear setup.now self.old.stands ≡ true }
        requires is { hearing_of setup.now self.old.stands.jobs self.old.stands.tagged line ≡ Asks number }
        ensures kept { self.new.kept ≡ self.old.kept }
        ensures ok { IfOk result (Took setup.now self.old self.new (hear_step setup.now self.old.stands line)) }
        ensures err { OnErr result (BookIsAsBefore self.old self.new) }
    {
        let job = Job::new(
            self.alloc,
            number,
            text_in(self.tagged, line.view()),
            self.prepared,
        )?;
        let texts = job.lines(self.alloc, setup, self.told.view())?;
        let said = all_wired(self.alloc, number, texts.view())?;
        if said.is_empty() {
            self.begin(setup, line, job)
        } else if job.is_awaiting(setup) {
            self.ask(setup, line, job, said)
        } else {
            self.answer_at_once(setup, line, &job, said)
        }
    }
}

// Values.
impl Book {
    // It was the last: the remotes get ready.
    fn tell_last(
        &mut self,
        setup: &Setup,
        line: Bytes,
        at: usize,
        values: Values,
    ) -> Result<Reply, NoMemory>
        requires may { may_hear setup.now self.old.stands ≡ true }
        requires apart { AreApart self.old.stands.jobs }
        requires is { IsValue setup.now self.old.stands line at values }
        requires last { slice_get setup.now.settings (length values) ≡ None }
        ensures kept { self.new.kept ≡ self.old.kept }
        ensures ok { IfOk result (Took setup.now self.old self.new (hear_step setup.now self.old.stands line)) }
        ensures err { OnErr result (BookIsAsBefore self.old self.new) }
    {
        note_heard(&mut self.journal, line, 0)?;
        self.jobs[at].values = values;
        Ok(Reply::Done)
    }

    // The next setting is asked for.
    fn tell_more(
        &mut self,
        setup: &Setup,
        line: Bytes,
        at: usize,
        values: Values,
        said: Bytes,
    ) -> Result<Reply, NoMemory>
        requires may { may_hear setup.now self.old.stands ≡ true }
        requires apart { AreApart self.old.stands.jobs }
        requires is { IsValue setup.now self.old.stands line at values }
        requires more { AsksNext setup.now self.old.stands.jobs at values said }
        ensures kept { self.new.kept ≡ self.old.kept }
        ensures ok { IfOk result (Took setup.now self.old self.new (hear_step setup.now self.old.stands line)) }
        ensures err { OnErr result (BookIsAsBefore self.old self.new) }
    {
        let number = self.jobs[at].number;
        note_said(
            self.alloc,
            &mut self.journal,
            &mut self.unwritten,
            line,
            number,
            said,
            0,
        )?;
        self.jobs[at].values = values;
        Ok(Reply::Done)
    }

    fn hear_value(&mut self, setup: &Setup, line: Bytes, number: u64) -> Result<Reply, NoMemory>
        requires may { may_hear setup.now self.old.stands ≡ true }
        requires apart { AreApart self.old.stands.jobs }
        requires is { hearing_of setup.now self.old.stands.jobs self.old.stands.tagged line ≡ Replies number }
        ensures kept { self.new.kept ≡ self.old.kept }
        ensures ok { IfOk result (Took setup.now self.old self.new (hear_step setup.now self.old.stands line)) }
        ensures err { OnErr result (BookIsAsBefore self.old self.new) }
    {
        let Some(at) = place_of(self.jobs.as_slice(), number) else {
            unreachable!()
        };
        let value = Bytes::copy(self.alloc, value_told(text_in(self.tagged, line.view())))?;
        let mut values = self.jobs[at].values.copy(self.alloc)?;
        values.push(value)?;
        let text = ask_for(self.alloc, setup, values.len())?;
        match wired(self.alloc, number, text)? {
            None => self.tell_last(setup, line, at, values),
            Some(said) => self.tell_more(setup, line, at, values, said),
        }
    }
}

impl Book {
    // It can't be answered, and ends the kit.
    fn hear_foul(&mut self, setup: &Setup, line: Bytes) -> Result<Reply, NoMemory>
        requires may { may_hear setup.now self.old.stands ≡ true }
        requires is { hearing_of setup.now self.old.stands.jobs self.old.stands.tagged line ≡ Foul }
        ensures kept { self.new.kept ≡ self.old.kept }
        ensures ok { IfOk result (Took setup.now self.old self.new (hear_step setup.now self.old.stands line)) }
        ensures err { OnErr result (BookIsAsBefore self.old self.new) }
    {
        note_heard(&mut self.journal, line, 0)?;
        self.over = true;
        Ok(Reply::Last)
    }

    // It can't stand here.
    fn hear_unexpected(&mut self, setup: &Setup, line: Bytes) -> Result<Reply, NoMemory>
        requires may { may_hear setup.now self.old.stands ≡ true }
        requires is { hearing_of setup.now self.old.stands.jobs self.old.stands.tagged line ≡ Unexpected }
        ensures kept { self.new.kept ≡ self.old.kept }
        ensures ok { IfOk result (Took setup.now self.old self.new (hear_step setup.now self.old.stands line)) }
        ensures err { OnErr result (BookIsAsBefore self.old self.new) }
    {
        let error = write_remote(self.alloc, &RemoteMsg::Error(b"unexpected message"))?;
        note_said(
            self.alloc,
            &mut self.journal,
            &mut self.unwritten,
            line,
            0,
            error,
            0,
        )?;
        self.over = true;
        Ok(Reply::Last)
    }

    // Nothing comes of it.
    fn hear_aside(&mut self, setup: &Setup, line: Bytes) -> Result<Reply, NoMemory>
        requires may { may_hear setup.now self.old.stands ≡ true }
        requires is { hearing_of setup.now self.old.stands.jobs self.old.stands.tagged line ≡ Aside }
        ensures kept { self.new.kept ≡ self.old.kept }
        ensures ok { IfOk result (Took setup.now self.old self.new (hear_step setup.now self.old.stands line)) }
        ensures err { OnErr result (BookIsAsBefore self.old self.new) }
    {
        note_heard(&mut self.journal, line, 0)?;
        Ok(Reply::Done)
    }

    /// A line of the host.
    pub(crate) fn hear(&mut self, setup: &Setup, line: Bytes) -> Result<Reply, NoMemory>
        requires apart { AreApart self.old.stands.jobs }
        ensures kept { self.new.kept ≡ self.old.kept }
        ensures ok { IfOk result (Took setup.now self.old self.new (hear_step setup.now self.old.stands line)) }
        ensures err { OnErr result (BookIsAsBefore self.old self.new) }
    {
        if !self.may_hear(setup) {
            return Ok(waiting(self.over || self.closed));
        }
        match hearing_of(setup, self.jobs.as_slice(), self.tagged, line.view()) {
            Hearing::Foul => self.hear_foul(setup, line),
            Hearing::Unexpected => self.hear_unexpected(setup, line),
            Hearing::Aside => self.hear_aside(setup, line),
            Hearing::Asks(number) => self.hear_request(setup, line, number),
            Hearing::Replies(number) => self.hear_value(setup, line, number),
        }
    }
}
