//! Sets of numbers as sorted runs.
ghost use Rattle.std.specs.Prelude.{◌≡◌, ◌↔◌, ◌≤◌, ◌<◌, ◌+◌, ◌-◌, ◌==◌, ◌||◌, ◌&&◌, true, false};
ghost use Rattle.std.specs.Prelude.{not, length, take};
ghost use Rattle.std.specs.Prelude.{slice_get, vec_len, vec_capacity, IsTrue, IsFalse, IfSome};
ghost use Rattle.std.specs.Prelude.{IfNone, IsSomeAnd, OnOk};
ghost use Rattle.number_sets.specs.Blocks.{IsLeft};
ghost use Rattle.number_sets.specs.Counts.{count_below, is_beyond};
ghost use Rattle.std.specs.List.{insert};
ghost use Rattle.std.specs.List.Sorted.{IsPartitionPoint};
ghost use Rattle.number_sets.specs.Least.{IsLeastIn, NonePasses};
ghost use Rattle.number_sets.specs.RunLists.{AreRunsFrom, IsFound, IsRunOf, IsSetTo, count_numbers};
ghost use Rattle.number_sets.specs.RunLists.{has_number};
ghost use Rattle.number_sets.specs.Runs.{has};

use crate::counts::recount;
use mlb_base::NoMemory;
use std::alloc::Global;
use std::marker::Model;

/// The numbers from the first to the last, both included.
#[derive(Clone, Copy)]
pub(crate) struct Run {
    pub(crate) first: u128,
    pub(crate) last: u128,
}

/// A set of numbers, held as the runs of numbers that follow one another, ascending.
///
/// There is memory for as many runs as there are numbers, so that taking a number out, which may
/// cut a run in two, takes none. A look-up takes the logarithm of the number of runs. Where a
/// number comes or goes, the runs after it are moved or counted anew.
pub struct NumberRuns {
    runs: Vec<Run>,
    /// For each run how many numbers are in those before it.
    before: Vec<usize>,
    count: usize,
}

impl Drop for NumberRuns {
    fn drop(self) {
        let NumberRuns {
            runs: _,
            before: _,
            count: _,
        } = self;
    }
}

impl Model for NumberRuns {
    ghost use Rattle.std.specs.Prelude.{◌-◌, min, vec_capacity};
    ghost use Rattle.number_sets.specs.RunLists.{AreHeld};
    ghost use Rattle.number_sets.specs.Runs.{RunsValue};

    ghost Value = { RunsValue };

    ghost view = { λ s. record { runs = s.runs.items; room = min (vec_capacity s.runs) (vec_capacity s.before) - s.count } };

    ghost invariant = { λ s. AreHeld s.runs.items s.before.items s.count (min (vec_capacity s.runs) (vec_capacity s.before)) };
}

#[tactic(auto, unfolding(crate::specs::Runs::has))]
impl NumberRuns {
    /// The empty set, which takes no memory.
    pub fn new(alloc: Global) -> NumberRuns
        ensures { has result ≡ (λ n. false) }
    {
        NumberRuns {
            runs: Vec::new(alloc),
            before: Vec::new(alloc),
            count: 0,
        }
    }

    /// Makes room for so many numbers more. Where there is no memory the set stays.
    pub fn reserve(&mut self, more: usize) -> Result<(), NoMemory>
        ensures has { has self.new ≡ has self.old }
        ensures room { OnOk result (more ≤ self.new.room) }
        ensures kept { self.old.room ≤ self.new.room }
    {
        // There are no more runs than numbers.
        let Some(wanted) = more.checked_add(self.count - self.runs.len()) else {
            return Err(NoMemory);
        };
        self.before.reserve(wanted)?;
        self.runs.reserve(wanted)?;
        Ok(())
    }

    /// Whether there is room for a number more.
    pub fn has_room(&self) -> bool
        ensures { IsTrue result → 0 < self.now.room }
    {
        self.count < self.runs.capacity() && self.count < self.before.capacity()
    }

    /// Puts the number in. There is room for it, so it takes no memory.
    pub fn insert(&mut self, number: u128)
        requires { 0 < self.old.room }
        ensures has { has self.new ≡ (λ n. (n == number) || has self.old n) }
        ensures room { self.old.room ≤ self.new.room + 1 }
    {
        // A run that ends right before the number takes it in.
        let index = first_from(&self.runs, number.saturating_sub(1));
        if put(&mut self.runs, index, number) {
            self.count += 1;
            recount(&self.runs, &mut self.before, index);
        }
    }

    /// Takes the number out. It takes no memory.
    pub fn remove(&mut self, number: u128)
        ensures has { has self.new ≡ (λ n. not (n == number) && has self.old n) }
        ensures room { self.old.room ≤ self.new.room }
    {
        let index = first_from(&self.runs, number);
        if take(&mut self.runs, index, number) {
            self.count -= 1;
            recount(&self.runs, &mut self.before, index);
        }
    }

    /// Whether the number is in the set.
    pub fn contains(&self, number: u128) -> bool
        ensures { result ≡ has self.now number }
    {
        run_of(&self.runs, number).is_some()
    }

    /// Whether no number is in the set.
    pub fn is_empty(&self) -> bool
        ensures { IsTrue result ↔ (has self.now ≡ (λ n. false)) }
    {
        self.runs.is_empty()
    }

    /// The least number from low to high that is in the set; in the logarithm of the number of
    /// runs.
    pub fn first_present(&self, low: u128, high: u128) -> Option<u128>
        ensures some { IfSome result (λ n. IsLeastIn (has self.now) low high n) }
        ensures none { IfNone result (NonePasses (has self.now) low high) }
    {
        first_of(&self.runs, low, high)
    }

    /// The least number from low to high that isn't in the set; in the logarithm of the number of
    /// runs.
    pub fn first_absent(&self, low: u128, high: u128) -> Option<u128>
        ensures some { IfSome result (λ n. IsLeastIn (λ m. not (has self.now m)) low high n) }
        ensures none { IfNone result (NonePasses (λ m. not (has self.now m)) low high) }
    {
        if high < low {
            return None;
        }
        match run_of(&self.runs, low) {
            None => Some(low),
            // Runs don't touch, so the number after this one is absent.
            Some(run) => {
                if run.last < high {
                    Some(run.last + 1)
                } else {
                    None
                }
            }
        }
    }

    /// The least number from low to high that is in this set and not in the other, whose numbers
    /// are all in this one; in the product of the logarithms of the numbers of runs.
    pub fn first_beyond(&self, fewer: &NumberRuns, low: u128, high: u128) -> Option<u128>
        requires { IsLeft (has self.now) fewer.now }
        ensures some { IfSome result (λ n. IsLeastIn (is_beyond self.now fewer.now) low high n) }
        ensures none { IfNone result (NonePasses (is_beyond self.now fewer.now) low high) }
    {
        let index = self.runs_up_to(fewer, self.count_beyond(fewer, low));
        // After the run there are more such numbers ahead than at the low end: so this run has the
        // first of them, or none does.
        let run = run_at(&self.runs, index.checked_sub(1)?)?;
        fewer.first_absent(low.max(run.first), high.min(run.last))
    }

    /// How many runs have at most so many numbers below their first that are in this set and not in
    /// the other.
    fn runs_up_to(&self, fewer: &NumberRuns, most: usize) -> usize
        requires { IsLeft (has self.now) fewer.now }
        ensures within { result ≤ length self.now.runs }
        ensures point { IsPartitionPoint
            (λ run. count_below (is_beyond self.now fewer.now) run.first ≤ most)
            (λ run. most < count_below (is_beyond self.now fewer.now) run.first) self.now.runs
            result }
    {
        self.runs
            .partition_point(|run| self.count_beyond(fewer, run.first) <= most)
    }

    /// How many numbers below this one are in this set and not in the other, whose numbers are all
    /// in this one.
    fn count_beyond(&self, fewer: &NumberRuns, number: u128) -> usize
        ensures { result ≡ count_below (has self.now) number - count_below (has fewer.now) number }
    {
        self.count_below(number)
            .saturating_sub(fewer.count_below(number))
    }

    /// How many numbers of the set are below this one; in the logarithm of the number of runs.
    fn count_below(&self, number: u128) -> usize
        ensures { result ≡ count_below (has self.now) number }
    {
        let index = first_from(&self.runs, number);
        match run_at(&self.runs, index) {
            Some(run) => self.before[index] + number.saturating_sub(run.first) as usize,
            None => self.count,
        }
    }
}

/// The index of the first run that ends at the number or after it.
fn first_from(runs: &[Run], number: u128) -> usize
    requires { AreRunsFrom 0 runs.now }
    ensures { IsFound number runs.now result }
{
    runs.partition_point(|run| run.last < number)
}

fn run_at(runs: &[Run], index: usize) -> Option<Run>
    ensures { result ≡ slice_get runs.now index }
{
    runs.get(index).copied()
}

/// The run that the number is in.
fn run_of(runs: &[Run], number: u128) -> Option<Run>
    requires { AreRunsFrom 0 runs.now }
    ensures some { IfSome result (λ run. IsRunOf runs.now number run) }
    ensures none { IfNone result (has_number runs.now number ≡ false) }
{
    let run = run_at(runs, first_from(runs, number))?;
    if run.first <= number { Some(run) } else { None }
}

/// The least number from low to high that is in a run.
fn first_of(runs: &[Run], low: u128, high: u128) -> Option<u128>
    requires { AreRunsFrom 0 runs.now }
    ensures some { IfSome result (λ n. IsLeastIn (has_number runs.now) low high n) }
    ensures none { IfNone result (NonePasses (has_number runs.now) low high) }
{
    if high < low {
        return None;
    }
    let run = run_at(runs, first_from(runs, low))?;
    if high < run.first {
        return None;
    }
    if run.first <= low {
        Some(low)
    } else {
        Some(run.first)
    }
}

/// Puts the number in, at the first run that ends right before it or later. Whether it wasn't there
/// is answered.
fn put(runs: &mut Vec<Run>, index: usize, number: u128) -> bool
    requires found { IsFound (number - 1) runs.old.items index }
    requires room { vec_len runs.old < vec_capacity runs.old }
    ensures set { IsSetTo 0 number true runs.old.items runs.new.items }
    ensures added { result ≡ not (has_number runs.old.items number) }
    ensures same { IsFalse result → runs.new.items ≡ runs.old.items }
    ensures kept { take index runs.new.items ≡ take index runs.old.items }
    ensures capacity { vec_capacity runs.new ≡ vec_capacity runs.old }
{
    let alone = Run {
        first: number,
        last: number,
    };
    let Some(run) = run_at(runs, index) else {
        place(runs, index, alone);
        return true;
    };
    if run.first.saturating_sub(number) > 1 {
        place(runs, index, alone);
    } else if number < run.first {
        runs[index] = Run {
            first: number,
            last: run.last,
        };
    } else if run.last < number {
        extend(runs, index, number);
    } else {
        return false;
    }
    true
}

/// The run stands at the index. There is room for it.
fn place(runs: &mut Vec<Run>, index: usize, run: Run)
    requires index { index ≤ vec_len runs.old }
    requires room { vec_len runs.old < vec_capacity runs.old }
    ensures items { runs.new.items ≡ insert runs.old.items index run }
    ensures capacity { vec_capacity runs.new ≡ vec_capacity runs.old }
{
    // Nothing is refused, since there is room.
    if let Err(refused) = runs.insert(index, run) {
        drop(refused);
    }
}

/// The run at the index, which ends right before the number, takes it in, and is joined with the
/// next one where that begins right after the number.
fn extend(runs: &mut Vec<Run>, index: usize, number: u128)
    requires found { IsFound (number - 1) runs.old.items index }
    requires ends { IsSomeAnd (slice_get runs.old.items index) (λ run. run.last + 1 ≡ number) }
    ensures set { IsSetTo 0 number true runs.old.items runs.new.items }
    ensures kept { take index runs.new.items ≡ take index runs.old.items }
    ensures capacity { vec_capacity runs.new ≡ vec_capacity runs.old }
{
    let first = runs[index].first;
    let next = run_at(runs, index + 1);
    match next {
        Some(next) if next.first.saturating_sub(number) <= 1 => {
            runs[index] = Run {
                first,
                last: next.last,
            };
            let _joined = runs.remove(index + 1);
        }
        _ => {
            runs[index] = Run {
                first,
                last: number,
            };
        }
    }
}

/// Takes the number out of the first run that ends at it or later. Whether it was there is
/// answered.
fn take(runs: &mut Vec<Run>, index: usize, number: u128) -> bool
    requires found { IsFound number runs.old.items index }
    requires room { count_numbers runs.old.items ≤ vec_capacity runs.old }
    ensures set { IsSetTo 0 number false runs.old.items runs.new.items }
    ensures taken { result ≡ has_number runs.old.items number }
    ensures same { IsFalse result → runs.new.items ≡ runs.old.items }
    ensures kept { take index runs.new.items ≡ take index runs.old.items }
    ensures capacity { vec_capacity runs.new ≡ vec_capacity runs.old }
{
    let Some(run) = run_at(runs, index) else {
        return false;
    };
    if number < run.first {
        return false;
    }
    if run.first == run.last {
        let _single = runs.remove(index);
    } else if number == run.first {
        runs[index] = Run {
            first: number + 1,
            last: run.last,
        };
    } else {
        runs[index] = Run {
            first: run.first,
            last: number - 1,
        };
        if number < run.last {
            let rest = Run {
                first: number + 1,
                last: run.last,
            };
            place(runs, index + 1, rest);
        }
    }
    true
}
