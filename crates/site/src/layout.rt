// Reading the fields of a site file where they stand.
ghost use Rattle.std.specs.Prelude.{ℕ, slice_index, ◌≡◌, ◌+◌, ◌*◌, ◌≤◌, ◌<◌, length};
ghost use Rattle.rows.specs.Words.{same};
ghost use Rattle.site.specs.Layout.{users as users_of, partitions as partitions_of, partitions_from, whole_length, name_at, password_at, partition_row};

use crate::PartitionRow;
use rows::LowFirst;
use terms::{Partition, Volume};

// Where the user rows begin, how long one is, and how long a partition row is.
const USERS_FROM: usize = 8;

const USER: usize = 16;

pub const PARTITION: usize = 24;

// The rows of users or of partitions, of `width` bytes each: those that begin with a name and a password.
#[derive(Clone, Copy)]
pub struct Rows<'a> {
    pub file: &'a [u8],
    pub from: usize,
    pub width: usize,
    pub count: usize,
    ghost bytes: { (k : ℕ) → slice_index file.now k < 256 },
    ghost wide: { 14 ≤ width },
    ghost within: { from + width * count ≤ length file.now },
}

// The partition rows.
#[derive(Clone, Copy)]
pub struct Partitions<'a> {
    pub file: &'a [u8],
    pub from: usize,
    pub count: usize,
    ghost bytes: { (k : ℕ) → slice_index file.now k < 256 },
    ghost begins: { from ≡ partitions_from file.now },
    ghost counted: { count ≡ partitions_of file.now },
    ghost within: { from + 24 * count ≤ length file.now },
}

// How many users the header says there are. That there is a header is asked of three functions and no type says it: where it is not
// asked, the length of the whole file is known.
#[tactic(auto, unfolding(crate::specs::Layout::users))]
pub fn user_count(file: &[u8]) -> usize
    requires { 8 ≤ length file.now }
    ensures { (result ≡ users_of file.now) × (result < 65536) }
{
    usize::from(u16::low_first_at(file, 0))
}

// How many partitions.
#[tactic(auto, unfolding(crate::specs::Layout::partitions))]
pub fn partition_count(file: &[u8]) -> usize
    requires { 8 ≤ length file.now }
    ensures { (result ≡ partitions_of file.now) × (result < 65536) }
{
    usize::from(u16::low_first_at(file, 4))
}

// Where the partition rows begin.
pub fn partitions_from(file: &[u8]) -> usize
    requires { 8 ≤ length file.now }
    ensures { result ≡ partitions_from file.now }
{
    USERS_FROM + USER * user_count(file)
}

// An index stands in each contract with its bound: it is what the caller chooses.
impl<'a> Rows<'a> {
    // The user rows of a file that is as long as its header says.
    pub fn users(file: &'a [u8]) -> Rows<'a>
        requires { length file.now ≡ whole_length file.now }
        ensures { (result.file.now ≡ file.now) × (result.from ≡ 8) × (result.width ≡ 16) × (result.count ≡ users_of file.now) }
    {
        Rows {
            file,
            from: USERS_FROM,
            width: USER,
            count: user_count(file),
        }
    }

    // The name of row i.
    pub fn name(&self, i: usize) -> &'a [u8; 8]
        requires { i < self.now.count }
        ensures { result.now ≡ name_at self.now.file.now self.now.from self.now.width i }
    {
        rows::array_in(self.file, self.from + self.width * i)
    }

    // Row i has this password.
    pub fn password_is(&self, i: usize, password: &[u8; 6]) -> bool
        requires { i < self.now.count }
        ensures { result ≡ same (password_at self.now.file.now self.now.from self.now.width i) password.now }
    {
        rows::is_same(
            rows::part(self.file, self.from + self.width * i + 8, 6),
            password,
        )
    }
}

impl<'a> Partitions<'a> {
    // The partition rows of a file that is as long as its header says.
    pub fn of(file: &'a [u8]) -> Partitions<'a>
        requires { length file.now ≡ whole_length file.now }
        ensures { result.file.now ≡ file.now }
    {
        Partitions {
            file,
            from: partitions_from(file),
            count: partition_count(file),
        }
    }

    // The same as rows with a name and a password.
    pub fn rows(&self) -> Rows<'a>
        ensures { (result.file.now ≡ self.now.file.now) × (result.from ≡ self.now.from) × (result.width ≡ 24) × (result.count ≡ self.now.count) }
    {
        Rows {
            file: self.file,
            from: self.from,
            width: PARTITION,
            count: self.count,
        }
    }

    // Row i by value.
    pub fn row(&self, i: usize) -> PartitionRow
        requires { i < self.now.count }
        ensures { result ≡ partition_row self.now.file.now i }
    {
        let at = self.from + PARTITION * i;
        PartitionRow {
            volume: Volume(self.file[at + 14]),
            partition: Partition(self.file[at + 15]),
            size: self.file[at + 16],
            control: self.file[at + 17],
            first: u32::low_first_at(self.file, at + 18),
        }
    }

    // Where row i begins on its volume.
    pub fn first_of(&self, i: usize) -> u32
        requires { i < self.now.count }
    {
        u32::low_first_at(self.file, self.from + PARTITION * i + 18)
    }
}
