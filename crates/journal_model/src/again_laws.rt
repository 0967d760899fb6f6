// Laws on tasks that are run again, each the contract of a function with nothing to do.
ghost use Rattle.std.specs.Prelude.{◌≡◌, true, false};
ghost use Rattle.journal_model.specs.AgainRows.{claimed_again, lost, lost_answer, one_check_again, renewed};
ghost use Rattle.journal_model.specs.Legality.{is_claimed, is_free, may_come, turn_of_task};
ghost use Rattle.journal_model.specs.declared.answer.Answer.TheVariants.{Memory, Present};
ghost use Rattle.journal_model.specs.declared.entry.What.TheVariants.{Again, Answer as Answered};

/// Where its child was lost a task is answered so, or run again if it may be; any other answer is an answer.
pub fn lost_tasks_are_run_again()
    ensures again { may_come (one_check_again 1) lost 0 (Again 1 lost_answer) ≡ true }
    ensures not_answered { may_come (one_check_again 1) lost 0 (Answered 1 lost_answer) ≡ false }
    ensures none_left { may_come (one_check_again 0) lost 0 (Again 1 lost_answer) ≡ false }
    ensures answered { may_come (one_check_again 0) lost 0 (Answered 1 lost_answer) ≡ true }
    ensures memory { may_come (one_check_again 1) lost 0 (Answered 1 Memory) ≡ true }
    ensures not_lost { may_come (one_check_again 1) lost 0 (Again 1 Present) ≡ false }
    ensures another_number { may_come (one_check_again 1) lost 1 (Again 1 lost_answer) ≡ false }
    ensures another_task { may_come (one_check_again 1) lost 0 (Again 2 lost_answer) ≡ false }
{}

/// Then it is free, for its next turn, and may be run again only so often; and never without a child.
pub fn turns_are_counted()
    ensures held { is_free (one_check_again 1) lost 1 ≡ false }
    ensures free { is_free (one_check_again 1) renewed 1 ≡ true }
    ensures first { turn_of_task lost 1 ≡ 1 }
    ensures second { turn_of_task renewed 1 ≡ 2 }
    ensures claimed { is_claimed (claimed_again 2) 1 ≡ true }
    ensures twice { may_come (one_check_again 1) (claimed_again 2) 0 (Again 1 lost_answer) ≡ false }
    ensures last { may_come (one_check_again 1) (claimed_again 2) 0 (Answered 1 lost_answer) ≡ true }
    ensures thrice { may_come (one_check_again 2) (claimed_again 2) 0 (Again 1 lost_answer) ≡ true }
    ensures childless { may_come (one_check_again 2) (claimed_again 0) 0 (Again 1 lost_answer) ≡ false }
    ensures repeated { may_come (one_check_again 2) (claimed_again 0) 0 (Answered 1 lost_answer) ≡ true }
{}
