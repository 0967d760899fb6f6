// Laws of chunk logs: each function's contract is one, and its body does nothing.
ghost use Rattle.std.specs.Prelude.{◌≡◌, ◌∷◌, [], ℕ, codes};
ghost use Rattle.task_text.specs.ChunkLog.ChunkLines.{IsWrittenUuid};
ghost use Rattle.task_text.specs.ChunkLog.Current.{layouts_of};
ghost use Rattle.task_text.specs.ChunkLog.LayoutRows.{key_a, layouts_here, noted_in, remote_r};
ghost use Rattle.task_text.specs.ChunkLog.LogLaws.{CountingGoesOn, LayoutsAreCurrent, ReadsBack};

pub fn counting_goes_on()
    ensures { CountingGoesOn }
{}

pub fn layouts_are_current()
    ensures { LayoutsAreCurrent }
{}

pub fn reads_back()
    ensures { ReadsBack }
{}

// The newest first and then the larger chunks, whatever order they were noted in, and nothing of another key, of another remote
// or of no chunks.
#[tactic(auto, unfolding(crate::specs::ChunkLog::Current::layouts_of))]
pub fn worked_layouts()
    ensures newest { layouts_here (noted_in 1 100 2 ∷ noted_in 3 50 4 ∷ noted_in 2 70 3 ∷ []) ≡ (50, 4) ∷ (70, 3) ∷ (100, 2) ∷ [] }
    ensures larger { layouts_here (noted_in 1 50 4 ∷ noted_in 1 100 2 ∷ noted_in 1 70 3 ∷ []) ≡ (100, 2) ∷ (70, 3) ∷ (50, 4) ∷ [] }
    ensures no_chunks { layouts_here (noted_in 1 50 0 ∷ noted_in 1 100 2 ∷ []) ≡ (100, 2) ∷ [] }
    ensures other_key { layouts_of (noted_in 1 50 4 ∷ []) (codes "WORM--b") remote_r ≡ [] }
    ensures other_remote { layouts_of (noted_in 1 50 4 ∷ []) key_a (codes "s") ≡ [] }
{}

// A UUID is written in lower case, and with hyphens.
pub fn worked_uuids()
    ensures nil { IsWrittenUuid (codes "00000000-0000-0000-0000-000000000000") }
    ensures upper { IsWrittenUuid (codes "A0000000-0000-0000-0000-000000000000") → ⊥ }
    ensures bare { IsWrittenUuid (codes "00000000000000000000000000000000") → ⊥ }
{}
