// Laws on tasks that have names, each the contract of a function with nothing to do.
ghost use Rattle.std.specs.Prelude.{◌≡◌, ◌++◌, ◌∷◌, [], true, false, codes};
ghost use Rattle.journal_model.specs.declared.answer.Answer.TheVariants.{Dropped};
ghost use Rattle.journal_model.specs.declared.entry.What.TheVariants.{Answer as Answered};
ghost use Rattle.journal_model.specs.Legality.{is_free};
ghost use Rattle.journal_model.specs.Rows.{by_main, drop_of_name, first_claimed, rename_and, rename_of, store_of, two_stores};

/// A task waits while another is busy that has one of its names, be it the old one or the new one; until the other is answered. A file is
/// no name, and two tasks without a name share none.
pub fn names_are_apart()
    ensures old { is_free (rename_and (drop_of_name (codes "WORM--b") (codes "x"))) first_claimed 2 ≡ false }
    ensures onto { is_free (rename_and (drop_of_name (codes "WORM--b") (codes "y"))) first_claimed 2 ≡ false }
    ensures swapped { is_free (rename_and (rename_of (codes "WORM--b") (codes "z") (codes "x"))) first_claimed 2 ≡ false }
    ensures same_key { is_free (rename_and (drop_of_name (codes "WORM--a") (codes "z"))) first_claimed 2 ≡ false }
    ensures apart { is_free (rename_and (drop_of_name (codes "WORM--b") (codes "z"))) first_claimed 2 ≡ true }
    ensures later { is_free (rename_and (drop_of_name (codes "WORM--b") (codes "x"))) (first_claimed ++ by_main (Answered 1 Dropped) ∷ []) 2 ≡ true }
    ensures claimed { is_free (rename_and (drop_of_name (codes "WORM--b") (codes "z"))) first_claimed 1 ≡ false }
    ensures file { is_free (rename_and (store_of (codes "WORM--b") (codes "x"))) first_claimed 2 ≡ true }
    ensures nameless { is_free (two_stores (codes "WORM--b") (codes "g")) first_claimed 2 ≡ true }
    ensures part_file { is_free (two_stores (codes "WORM--b") (codes "f.part")) first_claimed 2 ≡ false }
    ensures part_name { is_free (rename_and (drop_of_name (codes "WORM--b") (codes "x.part"))) first_claimed 2 ≡ true }
{}
