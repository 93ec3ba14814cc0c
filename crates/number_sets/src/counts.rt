//! How many numbers stand in runs before others.
ghost use Rattle.std.specs.Prelude.{◌≡◌, ◌≤◌, ◌<◌, ◌+◌, ◌-◌, ◌^◌, ◌++◌, ◌∷◌, [], vec_len};
ghost use Rattle.std.specs.Prelude.{vec_capacity, length, take};
ghost use Rattle.number_sets.specs.RunLists.{AreCountedTo, AreRunsFrom, count_numbers};

use crate::runs::Run;

/// Counts anew the numbers before each run from the index on, of which there may be more or fewer
/// than there were; those before the earlier runs are as they were. There is room for a count for
/// each run, so it takes no memory.
pub(crate) fn recount(runs: &[Run], before: &mut Vec<usize>, index: usize)
    requires apart { AreRunsFrom 0 runs.now }
    requires fits { count_numbers runs.now ≤ vec_capacity before.old }
    requires within { index ≤ length runs.now }
    requires there { index ≤ length before.old.items }
    requires counted { AreCountedTo index runs.now before.old.items }
    ensures each { length before.new.items ≡ length runs.now }
    ensures counts { AreCountedTo (length runs.now) runs.now before.new.items }
    ensures capacity { vec_capacity before.old ≤ vec_capacity before.new }
{
    before.truncate(index);
    let mut count = match index.checked_sub(1) {
        Some(last) => before[last] + size_of(runs[last]),
        None => 0,
    };
    for place in index..runs.len() {
        append(before, count);
        count += size_of(runs[place]);
    }
}

/// How many numbers the run has.
fn size_of(run: Run) -> usize
    requires ascends { run.first ≤ run.last }
    requires fits { run.last + 1 - run.first < 2 ^ 64 }
    ensures { result ≡ run.last + 1 - run.first }
{
    (run.last - run.first) as usize + 1
}

/// The count stands at the end. There is room for it.
fn append(before: &mut Vec<usize>, count: usize)
    requires room { vec_len before.old < vec_capacity before.old }
    ensures items { before.new.items ≡ before.old.items ++ count ∷ [] }
    ensures capacity { vec_capacity before.old ≤ vec_capacity before.new }
{
    // Nothing is refused, since there is room.
    if let Err(refused) = before.push(count) {
        drop(refused);
    }
}
