// Lists by the numbers of tasks. What is past the end reads as 0 or false, and can't be written.
ghost use Rattle.std.specs.Prelude.{◌≡◌};
ghost use Rattle.std.specs.List.{slice_set};
ghost use Rattle.task_queue.specs.Groups.{is_set, number_at};

pub(super) fn number_at(numbers: &[u32], task: u32) -> u32
    ensures { result ≡ number_at numbers.now task }
{
    match numbers.get(task as usize) {
        Some(number) => *number,
        None => 0,
    }
}

pub(super) fn is_set(flags: &[bool], place: usize) -> bool
    ensures { result ≡ is_set flags.now place }
{
    match flags.get(place) {
        Some(flag) => *flag,
        None => false,
    }
}

pub(super) fn put_number(numbers: &mut Vec<u32>, task: u32, number: u32)
    ensures { numbers.new.items ≡ slice_set numbers.old.items task number }
{
    let at = task as usize;
    if at < numbers.len() {
        numbers[at] = number;
    }
}

pub(super) fn put_flag(flags: &mut Vec<bool>, place: usize, flag: bool)
    ensures { flags.new.items ≡ slice_set flags.old.items place flag }
{
    if place < flags.len() {
        flags[place] = flag;
    }
}
