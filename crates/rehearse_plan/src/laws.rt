// Worked rows, each the contract of a function with nothing to do.
ghost use Rattle.std.specs.Prelude.{◌≡◌, ◌∷◌, [], codes};
ghost use Rattle.rehearse_plan.specs.Plans.{content_of, keys, tasks_of};
ghost use Rattle.task_text.specs.declared.task.Work.TheVariants.{Store, Get, Check, Drop};

/// The eight tasks of seed 1.
pub fn worked_tasks()
    ensures keys { keys 8 ≡ 3 }
    ensures tasks { tasks_of 1 8 ≡
        record { work = Check; key = codes "WORM-s18--r2"; file = []; name = []; onto = [] }
        ∷ record { work = Get; key = codes "WORM-s18--r2"; file = codes "dst/2"; name = []; onto = [] }
        ∷ record { work = Store; key = codes "WORM-s17--r1"; file = codes "src/1"; name = []; onto = [] }
        ∷ record { work = Drop; key = codes "WORM-s18--r2"; file = []; name = []; onto = [] }
        ∷ record { work = Drop; key = codes "WORM-s18--r2"; file = []; name = []; onto = [] }
        ∷ record { work = Drop; key = codes "WORM-s17--r1"; file = []; name = []; onto = [] }
        ∷ record { work = Store; key = codes "WORM-s18--r2"; file = codes "src/2"; name = []; onto = [] }
        ∷ record { work = Get; key = codes "WORM-s18--r2"; file = codes "dst/8"; name = []; onto = [] }
        ∷ [] }
{}

/// The content of a key.
pub fn worked_content()
    ensures first { content_of 0 ≡ 0 ∷ 7 ∷ 14 ∷ 21 ∷ 28 ∷ 35 ∷ 42 ∷ 49 ∷ 56 ∷ 63 ∷ 70 ∷ 77 ∷ 84 ∷ 91 ∷ 98 ∷ 105 ∷ [] }
    ensures wraps { content_of 201 ≡ 201 ∷ 208 ∷ 215 ∷ 222 ∷ 229 ∷ 236 ∷ 243 ∷ 250 ∷ 1 ∷ 8 ∷ 15 ∷ 22 ∷ 29 ∷ 36 ∷ 43 ∷ 50 ∷ 57 ∷ [] }
{}
