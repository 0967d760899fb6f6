// Laws of layouts: each function's contract is one, and its body does nothing.
ghost use Rattle.task_text.specs.Layouts.LayoutLaws.{EmptyHasOneRange, RangesAreTheWhole};

pub fn ranges_are_the_whole()
    ensures { RangesAreTheWhole }
{}

pub fn empty_has_one_range()
    ensures { EmptyHasOneRange }
{}
