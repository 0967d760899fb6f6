// Laws over a wire in two halves, each the contract of a function with nothing to do.
ghost use Rattle.std.specs.Prelude.{◌≡◌, ◌++◌, ◌<◌, ℕ, List, length, Option, Some, true, false};
ghost use Rattle.journal_model.specs.declared.entry.Entry.{Entry};
ghost use Rattle.journal_model.specs.declared.opening.Opening.{Opening};
ghost use Rattle.journal_model.specs.Journal.{any, got_lines, has_spoken, is_ended, is_tagged};
ghost use Rattle.journal_model.specs.Legality.{Legal, said_version};
ghost use Rattle.journal_model.specs.Wires.{Wired, Caused, is_heard_in_turn};
ghost use Rattle.journal_model.specs.Shares.{is_heard, is_said, is_of_child};
ghost use Rattle.journal_model.specs.Halves.{EarValue, MouthValue, EarWired, MouthWired};
ghost use Rattle.journal_model.specs.HalfRows.{sample_ear, dropping_ear, sample_mouth, silent_mouth, at_its_end, muted, unread_ear, empty_ear, unfailed_mouth, failed_mouth};
ghost use Rattle.journal_model.specs.Rows.{check_present};

/// What is known of a child's output and of its input is what a wire is, with the causes of its end and its mute.
pub fn halves_are_a_wire()
    ensures { (journal : List Entry) (e : EarValue) (m : MouthValue) → m.child ≡ e.child → EarWired journal e → MouthWired journal m
        → Wired journal e.child e.given m.taken e.held × Caused journal e.child e.left e.faults m.faults }
{}

/// Each half stays as it is where a journal goes on by entries that say nothing of it, whoever makes them. A tagged child's
/// lines are always in their turn, and those of any child stay so while nothing is done with it.
pub fn halves_stay()
    ensures ear { (past more : List Entry) (e : EarValue) → any (is_heard e.child) more ≡ false → EarWired past e → EarWired (past ++ more) e }
    ensures mouth { (past more : List Entry) (m : MouthValue) → any (is_said m.child) more ≡ false → MouthWired past m → MouthWired (past ++ more) m }
    ensures turn { (past more : List Entry) (c : ℕ) → any (is_of_child c) more ≡ false → is_heard_in_turn past c ≡ true → is_heard_in_turn (past ++ more) c ≡ true }
    ensures tagged { (past more : List Entry) (c : ℕ) → is_tagged past c ≡ true → is_heard_in_turn past c ≡ true → is_heard_in_turn (past ++ more) c ≡ true }
{}

/// What is read of one child has a bound: a journal that is full takes no line more, no line is longer than it may be, and little is
/// read that is not taken as a line.
pub fn reading_is_bounded()
    ensures { (o : Opening) (journal : List Entry) (c : ℕ) (read : List ℕ) (taken : Option (List ℕ)) (rest : List ℕ) → Legal o journal
        → Wired journal c (Some read) taken rest → length read < 1100000000 }
{}

/// In a legal journal a child that has spoken and hasn't ended said `VERSION 1` first.
pub fn speaking_begins_with_the_version()
    ensures { (o : Opening) (journal : List Entry) → Legal o journal → (c : ℕ) → has_spoken journal c ≡ true → is_ended journal c ≡ false → said_version journal c ≡ true }
{}

/// The halves of the worked check are wired. A byte that is nowhere is not, nor an end of an output that has something left.
pub fn worked_ears()
    ensures heard { EarWired check_present sample_ear }
    ensures dropped { EarWired check_present dropping_ear → ⊥ }
    ensures ended { EarWired at_its_end empty_ear }
    ensures unread { EarWired at_its_end unread_ear → ⊥ }
{}

/// Nor is a line that was noted as written and wasn't, nor a mute without a fault.
pub fn worked_mouths()
    ensures said { MouthWired check_present sample_mouth }
    ensures unsaid { MouthWired check_present silent_mouth → ⊥ }
    ensures mute { MouthWired muted failed_mouth }
    ensures unfailed { MouthWired muted unfailed_mouth → ⊥ }
{}
