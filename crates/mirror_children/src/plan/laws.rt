// Worked settings, accepted and refused, each the contract of a function with nothing to do.
ghost use Rattle.std.specs.Prelude.{◌≡◌, [], ◌∷◌, true, false, Some, None, codes};
ghost use Rattle.registers.specs.Registers.{nothing_set, with_config};
ghost use Rattle.mirror_children.specs.Plan.Settings.{first_bad, plan_at, plans_in, spells_plan};

/// A value is a program and NAME=VALUE, with one space between each two. A value may be empty, and hold an `=`.
pub fn worked_settings()
    ensures program { spells_plan (codes "annex-remote-dir") ≡ true }
    ensures settings { spells_plan (codes "annex-remote-dir directory=/a depth=2") ≡ true }
    ensures empty_value { spells_plan (codes "p a=") ≡ true }
    ensures plan { plan_at 3 (codes "p a=b=c") ≡ record { number = 3; program = codes "p"; registers = with_config nothing_set (codes "a") (codes "b=c") } }
    ensures later { plan_at 1 (codes "p a=1 a=2") ≡ record { number = 1; program = codes "p"; registers = with_config nothing_set (codes "a") (codes "2") } }
{}

/// It isn't where a space is too many, a name is missing or empty, or a byte isn't UTF-8.
pub fn refused_settings()
    ensures no_program { spells_plan (codes " a=b") ≡ false }
    ensures two_spaces { spells_plan (codes "p  a=b") ≡ false }
    ensures last_space { spells_plan (codes "p ") ≡ false }
    ensures no_equals { spells_plan (codes "p a") ≡ false }
    ensures no_name { spells_plan (codes "p =b") ≡ false }
    ensures no_text { spells_plan (112 ∷ 255 ∷ []) ≡ false }
{}

/// Empty values are passed over, and so are those after the eighth. The first bad one is told.
pub fn worked_values()
    ensures numbered { plans_in ([] ∷ codes "p" ∷ []) ≡ plan_at 2 (codes "p") ∷ [] }
    ensures none { plans_in ([] ∷ [] ∷ []) ≡ [] }
    ensures good { first_bad (codes "p" ∷ [] ∷ []) ≡ None }
    ensures bad { first_bad (codes "p" ∷ codes "p x" ∷ codes "q " ∷ []) ≡ Some 2 }
    ensures ninth { first_bad ([] ∷ [] ∷ [] ∷ [] ∷ [] ∷ [] ∷ [] ∷ [] ∷ codes "p x" ∷ []) ≡ None }
    ensures ninth_passed { plans_in ([] ∷ [] ∷ [] ∷ [] ∷ [] ∷ [] ∷ [] ∷ [] ∷ codes "p" ∷ []) ≡ [] }
{}
