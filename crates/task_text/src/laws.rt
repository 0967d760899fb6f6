// Laws over the definitions, each the contract of a function with nothing to do.
ghost use Rattle.std.specs.Prelude.{◌≡◌, ◌++◌, ◌∷◌, [], None, Some, codes};
ghost use Rattle.task_text.specs.Rows.{docs_name, store_line, store_task, xcheck_line, xcheck_task, xget_line, xget_task, xrename_line, xrename_task, xstore_line, xstore_task};
ghost use Rattle.task_text.specs.TaskLines.{fault_of, SpellsTask};
ghost use Rattle.task_text.specs.declared.error.TaskError.TheVariants.{File, Key, Name, Unsendable, Word};

/// Lines of exports, and the tasks that they spell.
pub fn worked_exports()
    ensures xstore { SpellsTask xstore_task xstore_line }
    ensures xget { SpellsTask xget_task xget_line }
    ensures xcheck { SpellsTask (xcheck_task docs_name) xcheck_line }
    ensures xcheck_front { SpellsTask (xcheck_task (codes "docs/a")) xcheck_line → ⊥ }
    ensures xrename { SpellsTask (xrename_task (codes "c d")) xrename_line }
    ensures xrename_nothing { SpellsTask (xrename_task []) xrename_line → ⊥ }
    ensures store { SpellsTask store_task store_line }
{}

/// What is wrong with a line that lacks a name, and what comes before that.
pub fn worked_names()
    ensures none { fault_of (codes "xstore WORM--a f") ≡ Some Name }
    ensures empty { fault_of (codes "xstore WORM--a f" ++ 9 ∷ []) ≡ Some Name }
    ensures second_tab { fault_of (codes "xstore WORM--a f" ++ 9 ∷ codes "a" ++ 9 ∷ codes "b") ≡ Some Name }
    ensures no_text { fault_of (codes "xstore WORM--a f" ++ 9 ∷ 255 ∷ []) ≡ Some Name }
    ensures line_end { fault_of (codes "xget WORM--a f" ++ 9 ∷ codes "a" ++ 10 ∷ []) ≡ Some Name }
    ensures xcheck_none { fault_of (codes "xcheck WORM--a") ≡ Some Name }
    ensures xcheck_tab { fault_of (codes "xcheck WORM--a a" ++ 9 ∷ codes "b") ≡ Some Name }
    ensures xdrop_empty { fault_of (codes "xdrop WORM--a ") ≡ Some Name }
    ensures no_new { fault_of (codes "xrename WORM--a a") ≡ Some Name }
    ensures empty_new { fault_of (codes "xrename WORM--a a" ++ 9 ∷ []) ≡ Some Name }
    ensures second_new { fault_of (codes "xrename WORM--a a" ++ 9 ∷ codes "b" ++ 9 ∷ codes "c") ≡ Some Name }
    ensures no_old { fault_of (codes "xrename WORM--a " ++ 9 ∷ codes "b") ≡ Some Name }
    ensures file_first { fault_of (codes "xstore WORM--a " ++ 9 ∷ []) ≡ Some File }
    ensures key_first { fault_of (codes "xstore x f") ≡ Some Key }
    ensures key_to_space { fault_of (codes "xdrop WORM--a" ++ 9 ∷ codes "n") ≡ Some Unsendable }
    ensures word_first { fault_of (codes "xlist WORM--a n") ≡ Some Word }
    ensures right { fault_of xrename_line ≡ None }
{}
