// Asking the children of a mirror, one after the other.
ghost use Rattle.std.specs.Prelude.{◌≡◌, ◌==◌, ◌<◌, ◌+◌, ◌||◌, not, true, codes, IfOk, IsTrue, OnErr, length};
ghost use Rattle.host_talk.specs.Request.Requests.{message_of};
ghost use Rattle.kit_serve.specs.Kit.Calls.{is_line_said};
ghost use Rattle.mirror_children.specs.Asking.{goes_while, AsksAt, AsksEach, LeavesAt};
ghost use Rattle.mirror_children.specs.Children.{AreServing};
ghost use Rattle.mirror_children.specs.Rule.{failure, is_mirrored, RulesAll, RulesCheck, RulesRetrieve};

use crate::child::Child;
use crate::saying::{is_absent, is_done, is_starved};
use ann_key::NoMemory;
use ann_outside::{Sink, Source};
use host_talk::request::Request;
use journal_model::Verdict;
use kit_serve::kit::Said;
use std::alloc::Global;

// Puts the request to the child at this place.
fn ask_at<I: Sink, O: Source, S>(
    children: &mut Vec<Child<I, O, S>>,
    at: usize,
    request: &Request,
) -> Result<Verdict, NoMemory>
    requires within { at < length children.old.items }
    requires serving { AreServing children.old.items }
    requires mirrored { is_mirrored (message_of request.now) ≡ true }
    ensures asked { IfOk result (AsksAt (message_of request.now) at children.old.items children.new.items) }
    ensures none { OnErr result (LeavesAt at children.old.items children.new.items) }
    ensures serving { AreServing children.new.items }
{
    children[at].ask(request)
}

// Whether no other child is to be asked after the one at this place, of so many.
fn is_last(verdict: Verdict, while_done: bool, at: usize, count: usize) -> bool
    requires within { at < count }
    ensures { result ≡ (not (goes_while while_done verdict) || at + 1 == count) }
{
    is_done(verdict) != while_done || at + 1 == count
}

// Puts the request to one child after the other, as long as each does it, or as long as none does. The place of the child that was asked
// last, and its verdict.
fn ask_each<I: Sink, O: Source, S>(
    children: &mut Vec<Child<I, O, S>>,
    request: &Request,
    while_done: bool,
) -> Result<(usize, Verdict), NoMemory>
    requires some { 0 < length children.old.items }
    requires serving { AreServing children.old.items }
    requires mirrored { is_mirrored (message_of request.now) ≡ true }
    ensures asks { AsksEach (goes_while while_done) (message_of request.now) children.old.items children.new.items result }
    ensures serving { AreServing children.new.items }
{
    let count = children.len();
    'children: for at in 0..count {
        let verdict = ask_at(children, at, request)?;
        if is_starved(verdict) {
            return Err(NoMemory);
        }
        if is_last(verdict, while_done, at, count) {
            return Ok((at, verdict));
        }
    }
    unreachable!()
}

fn not_prepared(alloc: Global) -> Result<Said, NoMemory>
    ensures text { IfOk result (λ said. said ≡ failure (codes "not prepared")) }
    ensures line { IfOk result (λ said. IsTrue (is_line_said said)) }
{
    Said::failure(alloc, b"not prepared")
}

/// What each child has to do, as storing and removing: Yes where all did.
pub fn ask_all<I: Sink, O: Source, S>(
    alloc: Global,
    children: &mut Vec<Child<I, O, S>>,
    request: &Request,
) -> Result<Said, NoMemory>
    requires serving { AreServing children.old.items }
    requires mirrored { is_mirrored (message_of request.now) ≡ true }
    ensures rules { RulesAll (message_of request.now) children.old.items children.new.items result }
    ensures serving { AreServing children.new.items }
    ensures line { IfOk result (λ said. IsTrue (is_line_said said)) }
{
    if children.is_empty() {
        return not_prepared(alloc);
    }
    let (at, verdict) = ask_each(children, request, true)?;
    if is_done(verdict) {
        Ok(Said::Yes)
    } else {
        children[at].refusal(alloc, verdict)
    }
}

/// Whether all children have it: No where one says that it hasn't.
pub fn ask_check<I: Sink, O: Source, S>(
    alloc: Global,
    children: &mut Vec<Child<I, O, S>>,
    request: &Request,
) -> Result<Said, NoMemory>
    requires serving { AreServing children.old.items }
    requires mirrored { is_mirrored (message_of request.now) ≡ true }
    ensures rules { RulesCheck (message_of request.now) children.old.items children.new.items result }
    ensures serving { AreServing children.new.items }
    ensures line { IfOk result (λ said. IsTrue (is_line_said said)) }
{
    if children.is_empty() {
        return not_prepared(alloc);
    }
    let (at, verdict) = ask_each(children, request, true)?;
    if is_done(verdict) {
        Ok(Said::Yes)
    } else if is_absent(verdict) {
        Ok(Said::No)
    } else {
        children[at].refusal(alloc, verdict)
    }
}

/// What one child has to do, as retrieving: Yes where one did.
pub fn ask_any<I: Sink, O: Source, S>(
    alloc: Global,
    children: &mut Vec<Child<I, O, S>>,
    request: &Request,
) -> Result<Said, NoMemory>
    requires serving { AreServing children.old.items }
    requires mirrored { is_mirrored (message_of request.now) ≡ true }
    ensures rules { RulesRetrieve (message_of request.now) children.old.items children.new.items result }
    ensures serving { AreServing children.new.items }
    ensures line { IfOk result (λ said. IsTrue (is_line_said said)) }
{
    if children.is_empty() {
        return not_prepared(alloc);
    }
    let (_, verdict) = ask_each(children, request, false)?;
    if is_done(verdict) {
        Ok(Said::Yes)
    } else {
        Said::failure(alloc, b"no mirror gave it")
    }
}
