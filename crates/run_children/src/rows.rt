// What is accepted and refused of the entries that numbers make over children without tags, and what follows. Each law is the contract of a
// function with nothing to do.
ghost use Rattle.std.specs.Prelude.{[]};
ghost use Rattle.run_children.specs.PostLaws.{HasOneNumber};
ghost use Rattle.run_children.specs.PostRows.{has_both, has_none, other_claims, other_hears, then_another, two_workers};
ghost use Rattle.run_children.specs.Posts.{AllPosted};

/// Two numbers each have a child, and after these are closed one has the next.
pub fn paired_numbers()
    ensures two { AllPosted [] two_workers }
    ensures next { AllPosted [] then_another }
{}

/// No number makes anything of a child that another has, nor has two at once, nor is at a post without a child.
pub fn unpaired_numbers()
    ensures hears { AllPosted [] other_hears → ⊥ }
    ensures claims { AllPosted [] other_claims → ⊥ }
    ensures both { AllPosted [] has_both → ⊥ }
    ensures none { AllPosted [] has_none → ⊥ }
{}

/// Of the entries that name a child without tags, all that the main thread didn't make are one number's.
pub fn one_number()
    ensures { HasOneNumber }
{}
