// The bytes of an input, within its limits.
ghost use Rattle.std.specs.Prelude.{ℕ, ◌≡◌, ◌+◌, List, [], ◌∷◌, ◌++◌, OnOk, true, false, length};
ghost use Rattle.audit_command.specs.Steps.{Comes, IsRefusedBehind};
ghost use Rattle.audit_command.specs.declared.limits.Limits.{Limits as AnyLimits};

use crate::error::AuditError;
use crate::limits::Limits;
use crate::lines::Lines;
use ann_key::NoMemory;
use journal_look::Journal;
use journal_model::Opening;
use std::alloc::Global;

/// The lines so far, the number of the line that is read, how many bytes were taken, and whether a limit was passed.
#[derive(Drop)]
pub(crate) struct Intake {
    pub(crate) lines: Lines,
    pub(crate) number: u64,
    pub(crate) bytes: u64,
    pub(crate) past: bool,
}

impl Intake {
    ghost use Rattle.audit_command.specs.Intakes.{Took};
    ghost use Rattle.audit_command.specs.SoFar.{ComesSoFar};
    ghost use Rattle.audit_command.specs.Standing.{Stands};

    /// No byte yet.
    pub(crate) fn new(alloc: Global) -> Intake
        ensures { (limits : AnyLimits) → Took limits [] result }
    {
        Intake {
            lines: Lines::new(alloc),
            number: 1,
            bytes: 0,
            past: false,
        }
    }

    /// Takes the bytes, up to the one that passes a limit.
    pub(crate) fn take_piece(&mut self, limits: &Limits, piece: &[u8]) -> Result<(), NoMemory>
        ensures { OnOk result ((bytes : List ℕ) → Took limits.now bytes self.old → Took limits.now (bytes ++ piece.now) self.new) }
    {
        for byte in piece {
            self.take(limits, *byte)?;
        }
        Ok(())
    }

    fn take(&mut self, limits: &Limits, byte: u8) -> Result<(), NoMemory>
        ensures { OnOk result ((bytes : List ℕ) → Took limits.now bytes self.old → Took limits.now (bytes ++ byte ∷ []) self.new) }
    {
        if self.past {
            return Ok(());
        }
        if self.bytes >= limits.bytes {
            self.pass();
            return Ok(());
        }
        if self.number > u64::from(limits.lines) {
            self.pass();
            return Ok(());
        }
        self.bytes += 1;
        if byte == b'\n' {
            self.number += 1;
            self.lines.end_line()
        } else {
            self.lines.hold(byte)
        }
    }

    // A limit is passed in the line that is read.
    fn pass(&mut self)
        ensures past { self.new.past ≡ true }
        ensures refused { (lines : List (List ℕ)) (rest : List ℕ) → Stands lines rest self.old.lines → self.old.number ≡ length lines + 1 → IsRefusedBehind lines self.new.lines.bad }
    {
        self.past = true;
        self.lines.refuse(self.number);
    }

    /// The opening and the journal of the input, where it has ended or passed a limit. What may stand after that doesn't count.
    pub(crate) fn finish(mut self) -> Result<(Opening, Journal), AuditError>
        ensures { (limits : AnyLimits) (bytes more : List ℕ) → Took limits bytes self → (self.past ≡ false → more ≡ []) → Comes limits (bytes ++ more) result }
    {
        if self.past {
            return self.lines.finish();
        }
        self.lines.end_input()?;
        self.lines.finish()
    }

    /// The same of an input that may be cut off: its end isn't asked for, and a last line that lacks its end doesn't count. None where it
    /// ends before its line `begin`.
    pub(crate) fn so_far(self) -> Result<Option<(Opening, Journal)>, AuditError>
        ensures { (limits : AnyLimits) (bytes : List ℕ) → Took limits bytes self → ComesSoFar limits bytes result }
    {
        self.lines.so_far()
    }
}
