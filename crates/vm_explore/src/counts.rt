// Which outcomes there were, and how often.
ghost use Rattle.std.specs.Prelude.{◌≡◌, ◌+◌, ◌-◌, ◌^◌, ◌<◌, ◌≢◌, ◌⊎◌, ◌++◌, ◌∷◌, [], Any, None, OnErr, OnOk, length, map, slice_index_or, slice_set};
ghost use Rattle.std.specs.List.{All, AllPairs};
ghost use Rattle.vm_explore.specs.Tables.{IsKept, Line, counted, line_of, once_more, place, times_of};

use indexmap::IndexSet;
use std::alloc::Global;
use std::marker::Model;
use vm_base::NoMemory;

/// An outcome, how many runs gave it, and the order of the accesses in the first of them.
#[derive(Drop)]
pub struct Row {
    /// What the loads gave, in the script's order.
    pub values: Vec<u64>,
    /// How many runs gave it.
    pub times: u32,
    /// The tasks whose accesses ended, the oldest first, in the first of these runs.
    pub order: Vec<u32>,
}

/// The outcomes of some runs, in the order in which they came.
///
/// Contracts see its rows as lists.
#[derive(Drop)]
pub struct Table {
    alloc: Global,
    outcomes: IndexSet<Vec<u64>>,
    rows: Vec<Row>,
}

impl Model for Table {
    ghost use Rattle.std.specs.Prelude.{List, map};
    ghost use Rattle.vm_explore.specs.Tables.{AreRows, Line, line_of};

    ghost Value = { List Line };

    ghost view = { λ t. map line_of t.rows.items };

    ghost invariant = { λ t. AreRows t.outcomes.keys t.rows.items };
}

impl Table {
    /// No run was counted.
    pub fn new(alloc: Global) -> Table
        ensures { result ≡ [] }
    {
        Table {
            alloc,
            outcomes: IndexSet::new(alloc),
            rows: Vec::new(alloc),
        }
    }

    /// The rows, in the order in which their outcomes came, one for each outcome.
    pub fn rows(&self) -> &[Row]
        ensures lines { map line_of result.now ≡ self.now }
        ensures apart { AllPairs (λ one other. one.values.items ≢ other.values.items) result.now }
    {
        &self.rows
    }

    /// The rows, given up.
    pub fn into_rows(self) -> Vec<Row>
        ensures { map line_of result.items ≡ self }
    {
        self.rows
    }

    /// Counts a run that gave an outcome; it fails for want of memory alone, and leaves all as it was.
    pub fn count(&mut self, values: Vec<u64>, order: &[u32]) -> Result<(), NoMemory>
        requires { times_of self.old < 2 ^ 32 - 1 }
        ensures ok { OnOk result (self.new ≡ counted values.items order.now self.old) }
        ensures err { OnErr result (self.new ≡ self.old) }
        ensures there { OnOk result (Any (λ line. line.values ≡ values.items) self.new) }
        ensures kept { OnOk result (All (λ line. Any (IsKept line) self.new) self.old) }
        ensures only { OnOk result (All (λ line. Any (λ old. IsKept old line) self.old
            ⊎ (line ≡ record { values = values.items; times = 1; order = order.now })) self.new) }
        ensures times { OnOk result (times_of self.new ≡ times_of self.old + 1) }
    {
        self.put(values, order)?;
        Ok(())
    }

    // Counts a run in its outcome's row, or adds a row.
    fn put(&mut self, values: Vec<u64>, order: &[u32]) -> Result<(), NoMemory>
        requires { times_of self.old < 2 ^ 32 - 1 }
        ensures ok { OnOk result (self.new ≡ counted values.items order.now self.old) }
        ensures err { OnErr result (self.new ≡ self.old) }
    {
        if let Some(i) = self.place(&values) {
            self.count_again(i);
            return Ok(());
        }
        self.add(values, order)?;
        Ok(())
    }

    // The place of an outcome's row, if it has one.
    fn place(&self, values: &[u64]) -> Option<usize>
        ensures { result ≡ place values.now self.now }
    {
        self.outcomes.get_index_of(values)
    }

    // Counts one run more in a row.
    fn count_again(&mut self, i: usize)
        requires within { i < length self.old }
        requires room { times_of self.old < 2 ^ 32 - 1 }
        ensures { (line : Line) → self.new ≡ slice_set self.old i (once_more (slice_index_or self.old i line)) }
    {
        self.rows[i].times += 1;
    }

    // Adds the row of an outcome that has none.
    fn add(&mut self, values: Vec<u64>, order: &[u32]) -> Result<(), NoMemory>
        requires { place values.items self.old ≡ None }
        ensures ok { OnOk result (self.new ≡ self.old ++ record { values = values.items; times = 1; order = order.now } ∷ []) }
        ensures err { OnErr result (self.new ≡ self.old) }
    {
        let row = Row {
            values: values.to_vec(self.alloc)?,
            times: 1,
            order: order.to_vec(self.alloc)?,
        };
        self.rows.reserve(1)?;
        self.outcomes.insert(values)?;
        self.rows.push(row).unwrap();
        Ok(())
    }
}
