// The rules of a site file, header first, then the user rows, then the partition rows. Each of the functions `first_..` answers
// how many rows are left before the first that breaks its rule, all n where none does: a count, that the next rule goes on with.
ghost use Rattle.std.specs.Prelude.{◌≡◌, true, false, ◌+◌, ◌≤◌, ◌<◌, length, Err};
ghost use Rattle.rows.specs.Words.{first, fails, zeros};
ghost use Rattle.site.specs.declared.Fault.TheVariants.{InPartition};
ghost use Rattle.site.specs.Layout.{spare_at};
ghost use Rattle.site.specs.Rules.{good_header, name_alone, ranged, sound, number_alone};
ghost use Rattle.site.specs.Shortcuts.{left_by_range, left_by_name, left_by_number, left_by_overlap, checked_partitions};

use crate::layout::{PARTITION, Partitions, Rows};
use crate::{Breach, Fault, PartitionRow, hashes, layout, sizes};
use rows::LowFirst;

// Counts, offsets and the length of the file.
pub fn header_good(file: &[u8]) -> bool
    ensures { result ≡ good_header file.now }
{
    if file.len() < 8 {
        return false;
    }
    let users = layout::user_count(file);
    let partitions = layout::partition_count(file);
    if 128 < users {
        return false;
    }
    if 64 < partitions {
        return false;
    }
    if u16::low_first_at(file, 2) != 8 {
        return false;
    }
    let from = layout::partitions_from(file);
    if usize::from(u16::low_first_at(file, 6)) != from {
        return false;
    }
    file.len() == from + PARTITION * partitions
}

impl<'a> Rows<'a> {
    // No earlier row has the name of row i: where its hash was not seen in an earlier row, none has.
    fn name_alone(&self, i: usize, seen: bool) -> bool
        requires i_in_bounds { i < self.now.count }
        requires i_value { seen ≡ false → name_alone self.now.file.now self.now.from self.now.width i ≡ true }
        ensures { result ≡ name_alone self.now.file.now self.now.from self.now.width i }
    {
        if !seen {
            return true;
        }
        self.earlier_name(i).is_none()
    }

    // The first of n rows that has the name of an earlier one, or n. The hash of each name is marked, and only a name whose
    // hash was marked before is compared with those before it.
    pub fn first_name_repeated(&self, n: usize) -> usize
        requires { n ≤ self.now.count }
        ensures { result ≡ first (fails (name_alone self.now.file.now self.now.from self.now.width)) n }
    {
        let mut map = [0u32; 32];
        for i in 0..n {
            let seen = rows::marks::mark(&mut map, hashes::name_hash(self.name(i)));
            if !self.name_alone(i, seen) {
                return i;
            }
        }
        n
    }
}

// The row's numbers are in range.
fn row_ranged(r: PartitionRow) -> bool
    ensures { result ≡ ranged r }
{
    if 3 < r.volume.0 {
        return false;
    }
    if 63 < r.partition.0 {
        return false;
    }
    if r.size < 1 {
        return false;
    }
    if 6 < r.size {
        return false;
    }
    r.first <= 1048576 - sizes::sectors(r.size)
}

// The two spare bytes of the row that begins at `at` are zero.
fn spare_zero(file: &[u8], at: usize) -> bool
    requires { at + 24 ≤ length file.now }
    ensures { result ≡ zeros (spare_at file.now at) }
{
    rows::is_zero(rows::part(file, at + 22, 2))
}

// The partition rows, and how many of them are left after each rule: those before the first that breaks it or a rule
// before it.
#[derive(Clone, Copy)]
struct Left {
    rows: usize,
    ranged: usize,
    named: usize,
    numbered: usize,
    apart: usize,
}

// A fault of partition row i.
fn faulty(i: usize, breach: Breach) -> Result<(), Fault>
    requires { i < 256 }
    ensures { result ≡ Err (InPartition i breach) }
{
    Err(Fault::InPartition(i as u8, breach))
}

impl<'a> Partitions<'a> {
    // Row i alone: its numbers and its spare bytes.
    fn is_sound(&self, i: usize) -> bool
        requires { i < self.now.count }
        ensures { result ≡ sound self.now.file.now i }
    {
        if !row_ranged(self.row(i)) {
            return false;
        }
        spare_zero(self.file, self.from + PARTITION * i)
    }

    // The first of n rows that is not sound by itself, or n.
    fn first_unsound(&self, n: usize) -> usize
        requires { n ≤ self.now.count }
        ensures { result ≡ first (fails (sound self.now.file.now)) n }
    {
        for i in 0..n {
            if !self.is_sound(i) {
                return i;
            }
        }
        n
    }

    // No earlier row has both volume and number of row i: where their hash was not seen in an earlier row, none has.
    fn number_alone(&self, i: usize, seen: bool) -> bool
        requires i_in_bounds { i < self.now.count }
        requires i_value { seen ≡ false → number_alone self.now.file.now i ≡ true }
        ensures { result ≡ number_alone self.now.file.now i }
    {
        if !seen {
            return true;
        }
        self.earlier_number(i).is_none()
    }

    // The first of n rows that has both volume and number of an earlier one, or n, by marks as above. It is no generic function with
    // first_name_repeated: their key, hash, size of the map and search differ, so that nothing but the loop would be shared.
    fn first_number_repeated(&self, n: usize) -> usize
        requires { n ≤ self.now.count }
        ensures { result ≡ first (fails (number_alone self.now.file.now)) n }
    {
        let mut map = [0u32; 8];
        for i in 0..n {
            let seen = rows::marks::mark(&mut map, hashes::number_hash(self, i));
            if !self.number_alone(i, seen) {
                return i;
            }
        }
        n
    }

    // Tests one rule after the other, each on the rows that the rules before it have left.
    fn rows_left(&self) -> Left
        requires { self.now.count ≤ 64 }
        ensures { (result.rows ≡ self.now.count) × (result.ranged ≡ left_by_range self.now.file.now) × (result.named ≡ left_by_name self.now.file.now) × (result.numbered ≡ left_by_number self.now.file.now) × (result.apart ≡ left_by_overlap self.now.file.now) }
    {
        let ranged = self.first_unsound(self.count);
        let named = self.rows().first_name_repeated(ranged);
        let numbered = self.first_number_repeated(named);
        let apart = self.first_overlap(numbered);
        Left {
            rows: self.count,
            ranged,
            named,
            numbered,
            apart,
        }
    }

    // The first fault of the rows: where rows were taken away, the last rule that took some took them from the least row on.
    #[tactic(auto, using(crate::proofs::FaultLaws::fewer))]
    pub fn check(&self) -> Result<(), Fault>
        requires { self.now.count ≤ 64 }
        ensures { result ≡ checked_partitions self.now.file.now }
    {
        let left = self.rows_left();
        if left.rows <= left.apart {
            return Ok(());
        }
        if left.apart < left.numbered {
            return faulty(left.apart, Breach::Overlap);
        }
        if left.numbered < left.named {
            return faulty(left.numbered, Breach::Number);
        }
        if left.named < left.ranged {
            return faulty(left.named, Breach::Name);
        }
        faulty(left.ranged, Breach::Range)
    }
}
