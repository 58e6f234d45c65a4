//! Tables of rows by workstation and number, or by workstation and two numbers.
ghost use Rattle.std.specs.Prelude.{◌≡◌, ℕ, cond, IfSome, IsSome, OnOk};
ghost use Rattle.owner_rows.specs.Tables.{pair_row_in, has_pair_row, has_row, keys_meet, row_in, same_key};

use base_types::NoMemory;
use indexmap::IndexMap;
use std::alloc::Global;

/// Rows by workstation and number. Where no row was put, the blank one counts.
pub(crate) struct Table<R> {
    pub(crate) rows: IndexMap<(u16, u64), R>,
    pub(crate) blank: R,
}

/// Written out, so that dropping one is a call for whoever owns it.
impl<R: Drop> Drop for Table<R> {
    fn drop(self) {
        let Table {
            rows: _rows,
            blank: _blank,
        } = self;
    }
}

impl<R: Copy> Table<R> {
    /// No rows, which takes no memory yet.
    pub(crate) fn new(alloc: Global, blank: R) -> Table<R>
        ensures { (q : ℕ × ℕ) → row_in result q ≡ blank }
    {
        Table {
            rows: IndexMap::new(alloc),
            blank,
        }
    }

    /// The row of a number.
    pub(crate) fn row(&self, w: u16, n: u64) -> R
        ensures { result ≡ row_in self.now (w, n) }
    {
        match self.rows.get(&(w, n)) {
            None => self.blank,
            Some(row) => *row,
        }
    }

    /// Takes the memory for a row, and changes none.
    pub(crate) fn prepare(&mut self, key: Option<(u16, u64)>) -> Result<(), NoMemory>
        ensures same { (q : ℕ × ℕ) → row_in self.new q ≡ row_in self.old q }
        ensures there { OnOk result (IfSome key (λ k. IsSome (has_row self.new k))) }
    {
        match key {
            None => Ok(()),
            Some((w, n)) => self.prepare_row(w, n),
        }
    }

    fn prepare_row(&mut self, w: u16, n: u64) -> Result<(), NoMemory>
        ensures same { (q : ℕ × ℕ) → row_in self.new q ≡ row_in self.old q }
        ensures there { OnOk result (IsSome (has_row self.new (w, n))) }
    {
        if self.rows.contains_key(&(w, n)) {
            return Ok(());
        }
        match self.rows.insert((w, n), self.blank) {
            Ok(_) => Ok(()),
            Err(_) => Err(NoMemory),
        }
    }

    /// Puts a row for which the memory is there.
    pub(crate) fn put(&mut self, w: u16, n: u64, row: R)
        requires { IsSome (has_row self.old (w, n)) }
        ensures { (q : ℕ × ℕ) → row_in self.new q ≡ cond (same_key (w, n) q) row (row_in self.old q) }
    {
        let _ = self.rows.insert((w, n), row);
    }
}

/// Rows by workstation and two numbers. Where no row was put, the blank one counts.
pub(crate) struct PairTable<R> {
    pub(crate) rows: IndexMap<(u16, (u64, u32)), R>,
    pub(crate) blank: R,
}

/// Written out, so that dropping one is a call for whoever owns it.
impl<R: Drop> Drop for PairTable<R> {
    fn drop(self) {
        let PairTable {
            rows: _rows,
            blank: _blank,
        } = self;
    }
}

impl<R: Copy> PairTable<R> {
    /// No rows, which takes no memory yet.
    pub(crate) fn new(alloc: Global, blank: R) -> PairTable<R>
        ensures { (q : ℕ × (ℕ × ℕ)) → pair_row_in result q ≡ blank }
    {
        PairTable {
            rows: IndexMap::new(alloc),
            blank,
        }
    }

    /// The row of two numbers.
    pub(crate) fn row(&self, w: u16, n: u64, i: u32) -> R
        ensures { result ≡ pair_row_in self.now (w, (n, i)) }
    {
        match self.rows.get(&(w, (n, i))) {
            None => self.blank,
            Some(row) => *row,
        }
    }

    /// Takes the memory for a row, and changes none.
    pub(crate) fn prepare(&mut self, key: Option<(u16, (u64, u32))>) -> Result<(), NoMemory>
        ensures same { (q : ℕ × (ℕ × ℕ)) → pair_row_in self.new q ≡ pair_row_in self.old q }
        ensures there { OnOk result (IfSome key (λ k. IsSome (has_pair_row self.new k))) }
    {
        match key {
            None => Ok(()),
            Some((w, (n, i))) => self.prepare_row(w, n, i),
        }
    }

    fn prepare_row(&mut self, w: u16, n: u64, i: u32) -> Result<(), NoMemory>
        ensures same { (q : ℕ × (ℕ × ℕ)) → pair_row_in self.new q ≡ pair_row_in self.old q }
        ensures there { OnOk result (IsSome (has_pair_row self.new (w, (n, i)))) }
    {
        if self.rows.contains_key(&(w, (n, i))) {
            return Ok(());
        }
        match self.rows.insert((w, (n, i)), self.blank) {
            Ok(_) => Ok(()),
            Err(_) => Err(NoMemory),
        }
    }

    /// Puts a row for which the memory is there.
    pub(crate) fn put(&mut self, w: u16, n: u64, i: u32, row: R)
        requires { IsSome (has_pair_row self.old (w, (n, i))) }
        ensures { (q : ℕ × (ℕ × ℕ)) →
            pair_row_in self.new q ≡ cond (keys_meet same_key (w, (n, i)) q) row (pair_row_in self.old q) }
    {
        let _ = self.rows.insert((w, (n, i)), row);
    }
}
