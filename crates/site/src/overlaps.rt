// No two partitions on one volume overlap. The rows are walked in the order in which they begin, beside how far those of each
// volume have reached: a row that begins there or later overlaps none of the rows before it.
ghost use Rattle.std.specs.Prelude.{◌≡◌, true, ℕ, ◌≤◌, ◌<◌};
ghost use Rattle.rows.specs.Words.{all, first, fails};
ghost use Rattle.site.specs.Layout.{partition_row};
ghost use Rattle.site.specs.Rules.{ranged, apart};
ghost use Rattle.site.specs.Shortcuts.{past, passing, Below};

use crate::layout::Partitions;
use crate::{PartitionRow, order, sizes};

// So few rows are searched in less time than they are laid in order.
const FEW: usize = 8;

// Says whether row r begins where its volume's rows have ended, and takes its end in.
fn pass(ends: &mut [u32; 4], r: PartitionRow) -> bool
    requires { ranged r ≡ true }
    ensures { (result ≡ past ends.old r) × (ends.new ≡ passing ends.old r) }
{
    let volume = usize::from(r.volume.0);
    let first = r.first;
    let end = first + sizes::sectors(r.size);
    let old = ends[volume];
    ends[volume] = old.max(end);
    old <= first
}

impl<'a> Partitions<'a> {
    // Walked in this order, each of the n rows begins where its volume's have ended: then no two overlap.
    fn walk(&self, n: usize, order: &[u8; 64]) -> bool
        requires n_in_bounds { (n ≤ self.now.count) × (n ≤ 64) }
        requires by_index { ((i : ℕ) → i < n → ranged (partition_row self.now.file.now i) ≡ true) × Below n order.now }
        ensures { result ≡ true → all (apart self.now.file.now) n ≡ true }
    {
        let mut ends = [0u32; 4];
        for k in 0..n {
            let row = self.row(usize::from(order[k]));
            if !pass(&mut ends, row) {
                return false;
            }
        }
        true
    }

    // The first of n rows that overlaps a row before it, or n: a count, as in rules.rt. Each is searched for.
    fn search_all(&self, n: usize) -> usize
        requires n_in_bounds { n ≤ self.now.count }
        requires by_index { (i : ℕ) → i < n → ranged (partition_row self.now.file.now i) ≡ true }
        ensures { result ≡ first (fails (apart self.now.file.now)) n }
    {
        for i in 0..n {
            if self.find_overlap(i).is_some() {
                return i;
            }
        }
        n
    }

    // The first of n rows that overlaps a row before it, or n. Where the walk does not show that none does, the rows are
    // searched; a few rows are searched at once.
    pub fn first_overlap(&self, n: usize) -> usize
        requires n_in_bounds { (n ≤ self.now.count) × (n ≤ 64) }
        requires by_index { (i : ℕ) → i < n → ranged (partition_row self.now.file.now i) ≡ true }
        ensures { result ≡ first (fails (apart self.now.file.now)) n }
    {
        if n < FEW {
            return self.search_all(n);
        }
        let order = order::lay(self, n);
        if self.walk(n, &order) {
            return n;
        }
        self.search_all(n)
    }
}
