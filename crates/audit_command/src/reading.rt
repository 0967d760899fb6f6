// Reads an input and audits it.
ghost use Rattle.std.specs.Prelude.{◌≡◌, ◌≤◌, ℕ, List, IfOk, IfSome, true};
ghost use Rattle.journal_audit.specs.Audits.{IsAudit};
ghost use Rattle.journal_model.specs.Beginnings.{MayBegin};
ghost use Rattle.ann_outside.specs.Causes.{StaysUntold};
ghost use Rattle.cli_words.specs.TaskInput.Reads.{Gave};
ghost use Rattle.audit_command.specs.Inputs.{AuditComesTo};
ghost use Rattle.audit_command.specs.Reads.{IsCounted, IsRead};
ghost use Rattle.audit_command.specs.Steps.{Holds, IsStep};

use crate::error::AuditError;
use crate::intake::Intake;
use crate::limits::Limits;
use ann_key::NoMemory;
use ann_outside::{Failed, Source};
use journal_audit::{Audit, audit};
use journal_look::Journal;
use journal_model::Opening;
use std::alloc::Global;

const STEP: usize = 4096;

/// Reads the source to its end, or until it passes a limit, as the text of a run, and says of its journal whether it is legal.
/// It takes memory for what the text tells, for one line, and for the audit.
pub fn audit_input<S: Source>(
    alloc: Global,
    source: &mut S,
    limits: &Limits,
) -> Result<Audit, AuditError>
    requires { (S.told source.old).is_open ≡ true }
    ensures input { (bytes : List ℕ) × Gave S.Source source.old source.new bytes × IsRead limits.now bytes (S.told source.new).left result }
    ensures told { IfSome (S.told source.old).left (λ all. AuditComesTo limits.now all result) }
    ensures faults { IsCounted (S.told source.old).faults (S.told source.new).faults result }
    ensures silent { StaysUntold (S.told source.old).given (S.told source.new).given × StaysUntold (S.told source.old).left (S.told source.new).left }
    ensures open { (S.told source.new).is_open ≡ true }
    ensures number { (S.told source.new).number ≡ (S.told source.old).number }
{
    let intake = take_all(alloc, source, limits)?;
    let (opening, journal) = intake.finish()?;
    let found = audit_all(alloc, opening, journal)?;
    Ok(found)
}

// What is found of the journal, which goes with its opening when that is done.
fn audit_all(alloc: Global, opening: Opening, journal: Journal) -> Result<Audit, NoMemory>
    requires begins { MayBegin opening }
    ensures audit { IfOk result (IsAudit opening journal.entries) }
{
    audit(alloc, &opening, &journal)
}

// Takes what the source gives up to its end, or until a limit is passed.
fn take_all<S: Source>(alloc: Global, source: &mut S, limits: &Limits) -> Result<Intake, AuditError>
    requires { (S.told source.old).is_open ≡ true }
    ensures given { (bytes : List ℕ) × Gave S.Source source.old source.new bytes × Holds limits.now bytes (S.told source.new).left result }
    ensures faults { IsCounted (S.told source.old).faults (S.told source.new).faults result }
    ensures silent { StaysUntold (S.told source.old).given (S.told source.new).given × StaysUntold (S.told source.old).left (S.told source.new).left }
    ensures open { (S.told source.new).is_open ≡ true }
    ensures number { (S.told source.new).number ≡ (S.told source.old).number }
{
    let mut intake = Intake::new(alloc);
    while !intake.past {
        if !read_step(source, limits, &mut intake)? {
            return Ok(intake);
        }
    }
    Ok(intake)
}

// Reads once, and says whether there was something to read.
fn read_step<S: Source>(
    source: &mut S,
    limits: &Limits,
    intake: &mut Intake,
) -> Result<bool, AuditError>
    requires { (S.told source.old).is_open ≡ true }
    ensures given { (piece : List ℕ) × Gave S.Source source.old source.new piece × IsStep limits.now intake.old intake.new piece (S.told source.new).left result }
    ensures faults { IsCounted (S.told source.old).faults (S.told source.new).faults result }
    ensures silent { StaysUntold (S.told source.old).given (S.told source.new).given × StaysUntold (S.told source.old).left (S.told source.new).left }
    ensures open { (S.told source.new).is_open ≡ true }
    ensures number { (S.told source.new).number ≡ (S.told source.old).number }
{
    let mut piece = [0; STEP];
    match source.read(&mut piece) {
        Ok(0) => Ok(false),
        Ok(n) => {
            intake.take_piece(limits, &piece[..n])?;
            Ok(true)
        }
        Err(Failed) => Err(AuditError::Failed),
    }
}
