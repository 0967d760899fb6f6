// Worked rows of the table of moves and of what is stored, each the contract of a function with nothing to do.
ghost use Rattle.std.specs.Prelude.{ℕ, ◌≡◌, false, [], ◌∷◌, codes};
ghost use Rattle.journal_model.specs.declared.opening.Opening.{Opening};
ghost use Rattle.host_core.specs.declared.event.Reply.{Reply};
ghost use Rattle.host_core.specs.declared.event.Event.TheVariants.{Start as StartEvent, Got as GotEvent};
ghost use Rattle.host_core.specs.declared.event.Reply.TheVariants.{Child, Done};
ghost use Rattle.pair_world.specs.declared.step.Move.TheVariants.{Event as EventMove, Write, ToKit, Work, ToHost, Hear, End};
ghost use Rattle.pair_world.specs.declared.step.Moved.TheVariants.{Did, Not};
ghost use Rattle.pair_kit.specs.Worlds.{WorldValue};
ghost use Rattle.pair_world.specs.Moves.{Moves};
ghost use Rattle.pair_world.specs.Rows.{empty, started, arrived, heard, asked, written, come_in_part, come, worked, ended};
ghost use Rattle.pair_kit.specs.Stored.{GiveLastStored, filed};
ghost use Rattle.pair_world.specs.StoredRows.{stored, retrieved, removed};

/// The main thread starts a child, which has its version on the way. Another number can't, and lines come by other moves alone.
pub fn starts()
    ensures starts { (o : Opening) → Moves (empty o) (EventMove 0 (StartEvent 0 false)) (Did (Child 1)) (started o) }
    ensures must { (o : Opening) → Moves (empty o) (EventMove 0 (StartEvent 0 false)) Not (empty o) → ⊥ }
    ensures other { (o : Opening) (reply : Reply) (new : WorldValue) → Moves (empty o) (EventMove 1 (StartEvent 0 false)) (Did reply) new → ⊥ }
    ensures barred { (o : Opening) (reply : Reply) (new : WorldValue) → Moves (arrived o) (EventMove 0 (GotEvent 1 (codes "VERSION 1"))) (Did reply) new → ⊥ }
{}

/// A request goes into the pipe, and is covered. So many bytes of it come to the kit's side as are moved, but never none, and no more
/// than there are.
pub fn request_is_carried()
    ensures written { (o : Opening) → Moves (asked o) (Write 1) (Did Done) (written o) }
    ensures must { (o : Opening) → Moves (asked o) (Write 1) Not (asked o) → ⊥ }
    ensures part { (o : Opening) → Moves (written o) (ToKit 1 3) (Did Done) (come_in_part o) }
    ensures rest { (o : Opening) → Moves (come_in_part o) (ToKit 1 13) (Did Done) (come o) }
    ensures none { (o : Opening) (reply : Reply) (new : WorldValue) → Moves (written o) (ToKit 1 0) (Did reply) new → ⊥ }
    ensures more { (o : Opening) (reply : Reply) (new : WorldValue) → Moves (written o) (ToKit 1 17) (Did reply) new → ⊥ }
{}

/// A kit takes a request that has come whole, and its answer goes into the other pipe.
pub fn request_is_answered()
    ensures part { (o : Opening) (reply : Reply) (new : WorldValue) → Moves (come_in_part o) (Work 1) (Did reply) new → ⊥ }
    ensures worked { (o : Opening) → Moves (come o) (Work 1) (Did Done) (worked o) }
    ensures must { (o : Opening) → Moves (come o) (Work 1) Not (come o) → ⊥ }
    ensures silent { (o : Opening) → Moves (come o) (Work 1) (Did Done) (come o) → ⊥ }
{}

/// A child ends when all that it said is used up. Then it is neither heard nor written to, and doesn't end again.
pub fn child_ends()
    ensures ended { (o : Opening) → Moves (heard o) (End 1) (Did Done) (ended o) }
    ensures must { (o : Opening) → Moves (heard o) (End 1) Not (heard o) → ⊥ }
    ensures again { (o : Opening) (reply : Reply) (new : WorldValue) → Moves (ended o) (End 1) (Did reply) new → ⊥ }
    ensures write { (o : Opening) (reply : Reply) (new : WorldValue) → Moves (ended o) (Write 1) (Did reply) new → ⊥ }
{}

/// Nothing is heard before it has come to the host's side, and no more comes than is on its way.
pub fn hear_not()
    ensures not { (o : Opening) → Moves (started o) (Hear 1) Not (started o) }
    ensures never { (o : Opening) (reply : Reply) (new : WorldValue) → Moves (started o) (Hear 1) (Did reply) new → ⊥ }
    ensures more { (o : Opening) (reply : Reply) (new : WorldValue) → Moves (started o) (ToHost 1 11) (Did reply) new → ⊥ }
    ensures unended { (o : Opening) (reply : Reply) (new : WorldValue) → Moves (started o) (End 1) (Did reply) new → ⊥ }
{}

/// A version that has come is heard: it stands in the journal, and no longer at the host's side.
pub fn hear_version()
    ensures comes { (o : Opening) → Moves (started o) (ToHost 1 10) (Did Done) (arrived o) }
    ensures heard { (o : Opening) → Moves (arrived o) (Hear 1) (Did Done) (heard o) }
    ensures must { (o : Opening) → Moves (arrived o) (Hear 1) Not (arrived o) → ⊥ }
    ensures noted { (o : Opening) → Moves (arrived o) (Hear 1) (Did Done) (arrived o) → ⊥ }
{}

/// A child of another number, and one to which nothing is said, can't be written to or worked.
pub fn nothing_to_do()
    ensures write { (o : Opening) (reply : Reply) (new : WorldValue) → Moves (started o) (Write 1) (Did reply) new → ⊥ }
    ensures work { (o : Opening) (reply : Reply) (new : WorldValue) → Moves (started o) (Work 1) (Did reply) new → ⊥ }
    ensures other { (o : Opening) (reply : Reply) (new : WorldValue) → Moves (arrived o) (Hear 2) (Did reply) new → ⊥ }
{}

/// A RETRIEVE gives what the last STORE of the key put, whatever became of other keys. After a REMOVE of the key there is none that
/// succeeds, and it gives neither other bytes nor those of an earlier STORE.
pub fn last_stored()
    ensures given { GiveLastStored (stored (codes "one") ∷ removed (codes "WORM--b") ∷ retrieved (codes "one") ∷ []) }
    ensures gone { GiveLastStored (stored (codes "one") ∷ removed (codes "WORM--a") ∷ retrieved (codes "one") ∷ []) → ⊥ }
    ensures other { GiveLastStored (stored (codes "one") ∷ removed (codes "WORM--b") ∷ retrieved (codes "two") ∷ []) → ⊥ }
    ensures earlier { GiveLastStored (stored (codes "one") ∷ stored (codes "two") ∷ retrieved (codes "one") ∷ []) → ⊥ }
{}

/// A RETRIEVE leaves its bytes in the file that it names; a STORE and a REMOVE change no file.
pub fn leaves_in_files()
    ensures retrieve { filed [] (retrieved (codes "one")) ≡ (codes "to", codes "one") ∷ [] }
    ensures store { filed [] (stored (codes "one")) ≡ [] }
    ensures remove { filed [] (removed (codes "WORM--a")) ≡ [] }
{}
