// A core that is told events by a number, of a child, or of a task.
use crate::entry_text::{said, text_of};
use crate::openings::{CHECK, opening};
use crate::{ends, requests, words};
use ann_key::{Bytes, NoMemory};
use host_core::{Core, Event, Reply};
use std::alloc::{AllocError, Global};
use task_text::chunk_log::Layouts;

/// Who tells the events that come, and of what.
#[derive(Clone, Copy)]
struct Turn {
    by: u32,
    child: u32,
    task: u32,
}

impl Turn {
    const FIRST: Turn = Turn {
        by: 0,
        child: 1,
        task: 1,
    };
}

/// A core that goes on from row to row.
#[derive(Drop)]
pub(crate) struct Stage {
    core: Option<Core>,
    turn: Turn,
    tasks: Vec<String>,
    again: u32,
}

impl Stage {
    pub(crate) fn new(alloc: Global) -> Stage {
        Stage {
            core: None,
            turn: Turn::FIRST,
            tasks: Vec::new(alloc),
            again: 0,
        }
    }

    /// A new core, the entries of the journal, what else is known of it, or an event and the reply to it.
    pub(crate) fn play(
        &mut self,
        alloc: Global,
        out: &mut String,
        text: &str,
    ) -> Result<(), NoMemory> {
        let (word, rest) = words::cut(text);
        match word {
            "task" => self.add_task(alloc, rest),
            "again" => {
                self.again = words::task(rest);
                Ok(())
            }
            "new" => self.renew(alloc),
            "close" => self.close(out),
            "by" | "child" | "of" => {
                self.turn_to(word, words::task(rest));
                Ok(())
            }
            _ => match &mut self.core {
                Some(core) => tell(alloc, out, core, self.turn, text),
                None => Ok(words::tell(out, "no core")?),
            },
        }
    }

    // The events from here on are told by this number, or are of this child or this task.
    fn turn_to(&mut self, word: &str, number: u32) {
        match word {
            "by" => self.turn.by = number,
            "child" => self.turn.child = number,
            _ => self.turn.task = number,
        }
    }

    // The next new core has this task too.
    fn add_task(&mut self, alloc: Global, line: &str) -> Result<(), NoMemory> {
        self.tasks.push(String::from_str(alloc, line)?)?;
        Ok(())
    }

    // A core with the tasks that were added since the last one, or with one check, which may be run again as often as was said since.
    fn renew(&mut self, alloc: Global) -> Result<(), NoMemory> {
        self.turn = Turn::FIRST;
        if self.tasks.is_empty() {
            self.add_task(alloc, CHECK)?;
        }
        let opening = opening(alloc, self.tasks.as_slice(), self.again)?;
        self.tasks.clear();
        self.again = 0;
        drop(self.core.replace(Core::new(alloc, opening)?));
        Ok(())
    }

    // How many entries the journal has at the end.
    fn close(&mut self, out: &mut String) -> Result<(), NoMemory> {
        match self.core.take() {
            Some(core) => {
                let (journal, registers, notes) = core.close();
                let entries = journal.len();
                drop(journal);
                drop(registers);
                drop(notes);
                Ok(words::tell_number(out, "entries", entries)?)
            }
            None => Ok(words::tell(out, "no core")?),
        }
    }
}

fn tell(
    alloc: Global,
    out: &mut String,
    core: &mut Core,
    turn: Turn,
    text: &str,
) -> Result<(), NoMemory> {
    match text {
        "journal" => {
            let entries = text_of(alloc, core.journal())?;
            Ok(write!(out, "\n{}", entries.trim_end())?)
        }
        "state" => Ok(tell_state(out, core, turn.child)?),
        _ => match event(alloc, turn, text)? {
            Some(event) => {
                let reply = core.step(turn.by, event)?;
                Ok(tell_reply(out, &reply)?)
            }
            None => Ok(words::tell(out, "no event")?),
        },
    }
}

fn tell_state(out: &mut String, core: &Core, child: u32) -> Result<(), AllocError> {
    let tags = if core.tagged(child) {
        "tagged"
    } else {
        "plain"
    };
    let unclaimed = core.unclaimed();
    let tasks = core.opening().tasks.view().len();
    write!(out, " => {tags}, {unclaimed} unclaimed of {tasks}")
}

fn event(alloc: Global, turn: Turn, text: &str) -> Result<Option<Event>, NoMemory> {
    let (word, rest) = words::cut(text);
    let child = turn.child;
    match word {
        "ask" => {
            let (task, request) = words::cut(rest);
            ask(alloc, child, words::task(task), request)
        }
        "got" => Ok(Some(Event::Got {
            child,
            line: Bytes::copy(alloc, rest.as_bytes())?,
        })),
        "stop" => Ok(ends::why(rest).map(|why| Event::Stop { child, why })),
        "answer" => Ok(of_answer(turn.task, rest)),
        _ => Ok(of_child(child, word, rest).or(of_task(turn.task, word, rest))),
    }
}

fn ask(alloc: Global, child: u32, task: u32, text: &str) -> Result<Option<Event>, NoMemory> {
    let request = requests::request(alloc, text)?;
    Ok(request.map(|request| Event::Ask {
        child,
        task,
        request,
    }))
}

fn of_answer(task: u32, text: &str) -> Option<Event> {
    ends::answer(text).map(|answer| Event::Answer { task, answer })
}

fn of_task(task: u32, word: &str, rest: &str) -> Option<Event> {
    match word {
        "note" => {
            let (chunk, count) = words::cut(rest);
            Some(Event::Note {
                task,
                chunk: words::number(chunk),
                count: words::number(count),
            })
        }
        "layouts" => Some(Event::Layouts { task }),
        "shut" => Some(Event::Shut { on: rest == "on" }),
        _ => None,
    }
}

fn of_child(child: u32, word: &str, rest: &str) -> Option<Event> {
    match word {
        "start" => Some(Event::Start {
            slot: 0,
            offer: rest == "async",
        }),
        "nostart" => Some(Event::NoStart { slot: 0 }),
        "claim" => Some(Event::Claim { child }),
        "lookup" => Some(Event::Lookup {
            child,
            job: words::number(rest),
        }),
        "look" => Some(Event::Look { child }),
        "listen" => Some(Event::Listen { child }),
        "fetch" => Some(Event::Fetch { child }),
        "sent" => Some(Event::Sent { child }),
        "mute" => Some(Event::Mute { child }),
        _ => None,
    }
}

fn tell_reply(out: &mut String, reply: &Reply) -> Result<(), AllocError> {
    match reply {
        Reply::Task { task, turn } => write!(out, " => task {task}, turn {turn}"),
        Reply::Child(child) => words::tell_number(out, "child", u64::from(*child)),
        Reply::Job(job) => words::tell_number(out, "job", *job),
        Reply::Verdict(verdict) => write!(out, " => {verdict:?}"),
        Reply::Layouts(layouts) => tell_layouts(out, layouts),
        Reply::Line(line) => write!(out, " => line {:?}", said(line.view())),
        Reply::Gone { why: Some(why) } => write!(out, " => gone {why:?}"),
        Reply::Gone { why: None } => words::tell(out, "gone mute"),
        Reply::Wait => words::tell(out, "wait"),
        Reply::NoTask => words::tell(out, "no task"),
        Reply::Read => words::tell(out, "read"),
        Reply::Over => words::tell(out, "over"),
        Reply::Done => words::tell(out, "done"),
        Reply::Odd => words::tell(out, "odd"),
    }
}

// Each layout as its chunk size and how many chunks there are.
fn tell_layouts(out: &mut String, layouts: &Layouts) -> Result<(), AllocError> {
    words::tell(out, "layouts")?;
    for (chunk, count) in layouts.view() {
        write!(out, " {chunk}x{count}")?;
    }
    Ok(())
}
