// Searches over the rows of a site file. Each ends at the first row that fits.
ghost use Rattle.std.specs.Prelude.{◌≡◌, true, ℕ, ◌+◌, ◌*◌, ◌≤◌, ◌<◌, length};
ghost use Rattle.rows.specs.Words.{first};
ghost use Rattle.rows.specs.Outcomes.{Finds};
ghost use Rattle.site.specs.declared.Breach.TheVariants.{Overlap};
ghost use Rattle.site.specs.declared.Fault.TheVariants.{InPartition};
ghost use Rattle.site.specs.Layout.{name_at, row_at, partition_row};
ghost use Rattle.site.specs.Faults.{earlier_row};
ghost use Rattle.site.specs.Rules.{named_at, ranged, meet, partition_numbered, partitions_overlap};

use crate::layout::{PARTITION, Partitions, Rows};
use crate::{Breach, sizes};
use rows::LowFirst;
use terms::{Partition, Volume, names};

impl<'a> Rows<'a> {
    // The first of n rows with this name. The padding of the name is looked for once, and each row is one comparison.
    pub fn find_name(&self, n: usize, name: &[u8; 8]) -> Option<usize>
        requires { n ≤ self.now.count }
        ensures { Finds n (first (named_at self.now.file.now self.now.from self.now.width name.now) n) result }
    {
        let pattern = names::pattern_of(name);
        for i in 0..n {
            if names::matches(self.name(i), pattern) {
                return Some(i);
            }
        }
        None
    }

    // The first row before row i with its name.
    pub fn earlier_name(&self, i: usize) -> Option<usize>
        requires { i < self.now.count }
        ensures { Finds i (first (named_at self.now.file.now self.now.from self.now.width (name_at self.now.file.now self.now.from self.now.width i)) i) result }
    {
        self.find_name(i, self.name(i))
    }
}

// Of the rows at bytes a and b each begins before the other ends, whatever their volumes.
fn rows_meet(file: &[u8], a: usize, b: usize) -> bool
    requires a_in_bounds { (a + 24 ≤ length file.now) × (b + 24 ≤ length file.now) }
    requires a_value { (ranged (row_at file.now a) ≡ true) × (ranged (row_at file.now b) ≡ true) }
    ensures { result ≡ meet (row_at file.now a) (row_at file.now b) }
{
    let first_a = u32::low_first_at(file, a + 18);
    let first_b = u32::low_first_at(file, b + 18);
    if first_b + sizes::sectors(file[b + 16]) <= first_a {
        return false;
    }
    first_b < first_a + sizes::sectors(file[a + 16])
}

impl<'a> Partitions<'a> {
    // Row i has this volume and number.
    fn is_numbered(&self, i: usize, volume: Volume, partition: Partition) -> bool
        requires { i < self.now.count }
        ensures { result ≡ partition_numbered self.now.file.now volume partition i }
    {
        let at = self.from + PARTITION * i;
        if self.file[at + 14] != volume.0 {
            return false;
        }
        self.file[at + 15] == partition.0
    }

    // The first of n rows with this volume and number.
    pub fn find_number(&self, n: usize, volume: Volume, partition: Partition) -> Option<usize>
        requires { n ≤ self.now.count }
        ensures { Finds n (first (partition_numbered self.now.file.now volume partition) n) result }
    {
        for i in 0..n {
            if self.is_numbered(i, volume, partition) {
                return Some(i);
            }
        }
        None
    }

    // The first row before row i with its volume and number.
    pub fn earlier_number(&self, i: usize) -> Option<usize>
        requires { i < self.now.count }
        ensures { Finds i (first (partition_numbered self.now.file.now (partition_row self.now.file.now i).volume (partition_row self.now.file.now i).partition) i) result }
    {
        let row = self.row(i);
        self.find_number(i, row.volume, row.partition)
    }

    // Rows i and j are on one volume and overlap.
    fn overlap(&self, i: usize, j: usize) -> bool
        requires i_in_bounds { (i < self.now.count) × (j < self.now.count) }
        requires i_value { (ranged (partition_row self.now.file.now i) ≡ true) × (ranged (partition_row self.now.file.now j) ≡ true) }
        ensures { result ≡ partitions_overlap self.now.file.now i j }
    {
        let a = self.from + PARTITION * i;
        let b = self.from + PARTITION * j;
        if self.file[a + 14] != self.file[b + 14] {
            return false;
        }
        rows_meet(self.file, a, b)
    }

    // The first of the rows before row i that it overlaps.
    pub fn find_overlap(&self, i: usize) -> Option<usize>
        requires i_in_bounds { i < self.now.count }
        requires by_index { (j : ℕ) → j ≤ i → ranged (partition_row self.now.file.now j) ≡ true }
        ensures { Finds i (first (partitions_overlap self.now.file.now i) i) result }
    {
        for j in 0..i {
            if self.overlap(i, j) {
                return Some(j);
            }
        }
        None
    }

    // The first row before row i that clashes with it in this way.
    pub fn earlier_clash(&self, i: usize, breach: Breach) -> Option<usize>
        requires i_in_bounds { i < self.now.count }
        requires j_value { breach ≡ Overlap → (j : ℕ) → j ≤ i → ranged (partition_row self.now.file.now j) ≡ true }
        ensures { Finds i (earlier_row self.now.file.now (InPartition i breach)) result }
    {
        match breach {
            Breach::Range => None,
            Breach::Name => self.rows().earlier_name(i),
            Breach::Number => self.earlier_number(i),
            Breach::Overlap => self.find_overlap(i),
        }
    }
}
