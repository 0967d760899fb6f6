// How one task asks its child.
ghost use Rattle.std.specs.Prelude.{◌≡◌, ◌<◌, true, IfOk, OnErr, length};
ghost use Rattle.annex_model.specs.Messages.{is_askable};
ghost use Rattle.annex_model.specs.Turns.{turn_of};
ghost use Rattle.annex_model.specs.declared.turn.Turn.TheVariants.{Later};
ghost use Rattle.journal_model.specs.Projection.{IsNamed};
ghost use Rattle.host_talk.specs.Request.Requests.{message_of, name_of};
ghost use Rattle.task_model.specs.Askers.{AskerTold, AskAdds, NoteAdds, IsSameTask, names_in_line, is_said_in_line, are_layouts};

use ann_key::NoMemory;
use host_talk::request::Request;
use journal_model::Verdict;
use std::alloc::Global;
use task_text::chunk_log::Layouts;

/// The way of one task to its child: it asks requests one after the other, and notes what chunks the remote has.
pub trait Asker {
    // what was asked and noted so far, and for which task
    ghost told: { Self → AskerTold };

    // it may ask and note
    ghost ready: { Self → Type 0 };

    // the second is what calls of its own made of the first
    ghost goes_on: { Self → Self → Type 0 };

    /// Asks the request and waits for its verdict. A verdict by a line says what some line of an answer to the request says.
    fn ask(&mut self, alloc: Global, number: u32, request: &Request) -> Result<Verdict, NoMemory>
        requires task { number ≡ (told self.old).task }
        requires ready { ready self.old }
        requires turn { turn_of (message_of request.now) ≡ Later }
        requires fields { is_askable (message_of request.now) ≡ true }
        requires file { names_in_line (message_of request.now) ≡ true }
        requires name { is_said_in_line (name_of request.now) ≡ true }
        ensures pairs { AskAdds (told self.old).pairs (told self.new).pairs (name_of request.now) (message_of request.now) result }
        ensures named { IfOk result (IsNamed (message_of request.now)) }
        ensures notes { (told self.new).notes ≡ (told self.old).notes }
        ensures layouts { (told self.new).current ≡ (told self.old).current }
        ensures same { IsSameTask (told self.old) (told self.new) }
        ensures on { goes_on self.old self.new };

    /// The layouts in which the remote is known to have the task's key.
    fn layouts(&mut self, alloc: Global, number: u32) -> Result<Layouts, NoMemory>
        requires task { number ≡ (told self.old).task }
        requires ready { ready self.old }
        ensures told { IfOk result (λ list. list ≡ (told self.old).current) }
        ensures sizes { are_layouts (told self.old).current ≡ true }
        ensures pairs { (told self.new).pairs ≡ (told self.old).pairs }
        ensures notes { (told self.new).notes ≡ (told self.old).notes }
        ensures layouts { (told self.new).current ≡ (told self.old).current }
        ensures same { IsSameTask (told self.old) (told self.new) }
        ensures on { goes_on self.old self.new };

    /// Notes that the remote has so many chunks of that size.
    fn note(&mut self, number: u32, chunk: u64, count: u64) -> Result<(), NoMemory>
        requires task { number ≡ (told self.old).task }
        requires ready { ready self.old }
        requires may { (told self.old).may_note ≡ true }
        requires chunk { 0 < chunk }
        ensures notes { NoteAdds (told self.old).notes (told self.new).notes (record { chunk = chunk; count = count; behind = length (told self.old).pairs }) result }
        ensures pairs { (told self.new).pairs ≡ (told self.old).pairs }
        ensures layouts { OnErr result ((told self.new).current ≡ (told self.old).current) }
        ensures same { IsSameTask (told self.old) (told self.new) }
        ensures on { goes_on self.old self.new };

    // without a call it is as it was
    ghost stays: { (a : Self) → ready a → goes_on a a };

    // it may go on after a call
    ghost is_ready: { (a b : Self) → goes_on a b → ready b };

    ghost goes_both: { (a b d : Self) → goes_on a b → goes_on b d → goes_on a d };
}
