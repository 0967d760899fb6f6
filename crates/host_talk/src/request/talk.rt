ghost use Rattle.std.specs.Prelude.{◌≡◌, ◌||◌, ◌++◌, ◌∷◌, [], List, Option, Some, None, true, false};
ghost use Rattle.annex_model.specs.Messages.{RemoteMessage};
ghost use Rattle.annex_model.specs.Talks.{shape_of, awaits};
ghost use Rattle.annex_model.specs.Hearings.{by_answer};
ghost use Rattle.wire_msg.specs.Shown.{remote_shown};
ghost use Rattle.host_talk.specs.Request.Requests.{message_of};
ghost use Rattle.host_talk.specs.Request.Talked.{is_over, is_last, is_waiting, is_half};
ghost use Rattle.host_talk.specs.Request.Hearings.{heard_as, heard, Follows, is_taken, is_settled};
ghost use Rattle.host_talk.specs.declared.request.talk.Heard.TheVariants.{Foul};
ghost use Rattle.host_talk.specs.Request.Stages.{line_heard, answer_heard, heard_by, stage_behind, stage_after};

use crate::request::answer;
use crate::request::request::Request;
use annex_model::Final;
use std::marker::Model;
use wire_msg::RemoteMsg;

/// What a message is to a talk.
#[derive(Clone, Copy, PartialEq, Eq, Debug)]
pub enum Heard {
    /// One that may be said in any talk, and leaves it as it was.
    Aside,
    /// A line of an answer of several, which goes on.
    Part,
    /// The end of the answer, which says this of the request.
    Settled(Final),
    /// One that can't follow here. The talk is as before.
    Foul,
}

/// How far an answer has come.
#[derive(Clone, Copy)]
enum Stage {
    /// Nothing was said.
    Waiting,
    /// Some lines were, and none awaits another.
    Between,
    /// A field awaits its value.
    Half,
    /// The answer is whole.
    Over,
}

impl Stage {
    fn is_waiting(&self) -> bool
        ensures { result ≡ is_waiting self.now }
    {
        matches!(self, Stage::Waiting)
    }

    fn is_half(&self) -> bool
        ensures { result ≡ is_half self.now }
    {
        matches!(self, Stage::Half)
    }

    fn is_over(&self) -> bool
        ensures { result ≡ is_last self.now }
    {
        matches!(self, Stage::Over)
    }
}

fn stage_behind(message: &RemoteMsg<'_>) -> Stage
    ensures { result ≡ stage_behind (remote_shown message.now) }
{
    if answer::is_field(message) {
        Stage::Half
    } else {
        Stage::Between
    }
}

fn stage_after(stage: Stage, heard: Heard, message: &RemoteMsg<'_>) -> Stage
    ensures { result ≡ stage_after stage heard (remote_shown message.now) }
{
    match heard {
        Heard::Part => stage_behind(message),
        Heard::Settled(_) => Stage::Over,
        Heard::Aside | Heard::Foul => stage,
    }
}

fn one_line_heard(last: Option<Final>) -> Heard
    ensures { result ≡ heard_as (by_answer last false) }
{
    match last {
        Some(last) => Heard::Settled(last),
        None => Heard::Foul,
    }
}

/// What the message is as a line of the answer to the request, in which a field awaits its value or not.
fn line_heard(request: &Request, half: bool, message: &RemoteMsg<'_>) -> Heard
    ensures { result ≡ line_heard (shape_of (message_of request.now)) (message_of request.now) half (remote_shown message.now) }
{
    match request {
        Request::ListConfigs => answer::config(message),
        Request::GetInfo => answer::info(half, message),
        _ => one_line_heard(answer::one_line(request, message)),
    }
}

/// What the message, which is no aside, is to the request.
fn answer_heard(request: &Request, stage: Stage, message: &RemoteMsg<'_>) -> Heard
    ensures { result ≡ answer_heard (message_of request.now) stage (remote_shown message.now) }
{
    if stage.is_waiting() && answer::is_unsupported(message) {
        Heard::Settled(Final::Unsupported)
    } else {
        line_heard(request, stage.is_half(), message)
    }
}

/// A request, and how far its answer has come. Contracts see both.
#[derive(Drop)]
pub struct Talk {
    request: Request,
    stage: Stage,
}

impl Model for Talk {
    ghost use Rattle.host_talk.specs.Request.Talked.{Talked};

    ghost Value = { Talked };

    ghost view = { λ t. record { request = t.request; stage = t.stage } };
}

impl Talk {
    /// The talk about the request, to which nothing was said yet. It takes no memory.
    pub fn ask(request: Request) -> Talk
        ensures request { result.request ≡ request }
        ensures waits { is_over result ≡ false }
        ensures begins { Follows result [] }
    {
        Talk {
            request,
            stage: Stage::Waiting,
        }
    }

    /// The talk about the request of whose answer this line was said last, asides left out, and which goes on. It takes no memory.
    pub fn after(request: Request, last: &RemoteMsg<'_>) -> Talk
        ensures request { result.request ≡ request }
        ensures waits { is_over result ≡ false }
        ensures follows { (ms : List (Option RemoteMessage)) → let all = ms ++ Some (remote_shown last.now) ∷ [] in awaits (message_of request) all ≡ true → Follows result all }
    {
        Talk {
            request,
            stage: stage_behind(last),
        }
    }

    /// The request.
    pub fn request(&self) -> &Request
        ensures { result.now ≡ self.now.request }
    {
        &self.request
    }

    fn heard(&self, message: &RemoteMsg<'_>) -> Heard
        ensures { result ≡ heard_by self.now (remote_shown message.now) }
    {
        if self.stage.is_over() {
            Heard::Foul
        } else if answer::is_aside(message) {
            Heard::Aside
        } else {
            answer_heard(&self.request, self.stage, message)
        }
    }

    /// What the message is to the talk, after what was said. After a whole answer each is foul. It takes no memory.
    pub fn hear(&mut self, message: &RemoteMsg<'_>) -> Heard
        ensures answer { (ms : List (Option RemoteMessage)) → Follows self.old ms → is_over self.old ≡ false → result ≡ heard (message_of self.old.request) ms (remote_shown message.now) }
        ensures over { is_over self.old ≡ true → result ≡ Foul }
        ensures goes_on { (ms : List (Option RemoteMessage)) → Follows self.old ms → is_taken result ≡ true → Follows self.new (ms ++ Some (remote_shown message.now) ∷ []) }
        ensures stays { is_taken result ≡ false → self.new ≡ self.old }
        ensures ends { is_over self.new ≡ (is_over self.old || is_settled result) }
        ensures request { self.new.request ≡ self.old.request }
    {
        let heard = self.heard(message);
        self.stage = stage_after(self.stage, heard, message);
        heard
    }
}
