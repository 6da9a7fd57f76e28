// The site file: its check, what is looked up in it, and the place of an address. The file is lent and never copied.
// `check`, `is_good`, `place` and `Site::of` take any bytes; `earlier_row` takes the fault that `check` gave for the file. The rest is
// looked up in a `Site`, a file that keeps every rule.
#![tactic(auto)]

mod hashes;
mod layout;
mod order;
mod overlaps;
mod rules;
mod search;
mod sizes;

ghost use Rattle.std.specs.Prelude.{◌≡◌, true, ◌<◌, Err, MatchResult};
ghost use Rattle.rows.specs.Words.{same};
ghost use Rattle.rows.specs.Outcomes.{Gives, Finds};
ghost use Rattle.refusals.specs.Refusals.{number};
ghost use Rattle.refusals.specs.Outcomes.{GivesUnless};
ghost use Rattle.site.specs.declared.Refused.TheVariants as refused;
ghost use Rattle.site.specs.Layout.{partitions, partition_row, partition_password};
ghost use Rattle.site.specs.Rules.{good_site, ranged};
ghost use Rattle.site.specs.Faults.{checked, fault_row, earlier_row};
ghost use Rattle.site.specs.Found.{has_user, index_of_name, index_of_number};
ghost use Rattle.site.specs.Places.{placed_on, placed_in, placed_by, located, refused_number};

use layout::{Partitions, Rows};
use refusals::Refusal;
use std::error::Error;
use std::fmt;
use terms::{Address, Partition, Place, Volume};

// Room to read a file into: one byte more than the longest good one has, so that a longer one is seen to be too long.
pub const ROOM: usize = 3593;

// A partition row without its name and password.
#[derive(Clone, Copy, Debug, PartialEq, Eq)]
pub struct PartitionRow {
    pub volume: Volume,
    pub partition: Partition,
    pub size: u8,
    pub control: u8,
    pub first: u32,
}

// What is wrong with a row: a range, a repeated name, a repeated volume and number, an overlap.
#[derive(Clone, Copy, Debug, PartialEq, Eq)]
pub enum Breach {
    Range,
    Name,
    Number,
    Overlap,
}

// A fault of a file: in its header, in a user row or in a partition row, by the row's index.
#[derive(Clone, Copy, Debug, PartialEq, Eq)]
pub enum Fault {
    InHeader,
    InUser(u8),
    InPartition(u8, Breach),
}

// Why an address has no place in a file: the file's first fault, or a refusal of the address.
#[derive(Clone, Copy, Debug, PartialEq, Eq)]
pub enum Refused {
    Site(Fault),
    By(Refusal),
}

impl Refused {
    // The refusal, whose number the C program is told.
    pub fn refusal(self) -> Refusal
        ensures { number result ≡ refused_number self }
    {
        match self {
            Refused::Site(_) => Refusal::BadSiteFile,
            Refused::By(refusal) => refusal,
        }
    }

    // Its number.
    pub fn number(self) -> u8
        ensures { result ≡ refused_number self }
    {
        self.refusal().number()
    }
}

impl fmt::Display for Refused {
    fn fmt<W: fmt::Write>(&self, f: &mut fmt::Formatter<W>) -> fmt::Result {
        self.refusal().fmt(f)
    }
}

impl Error for Refused {}

impl From<Fault> for Refused {
    ghost from_gives = { λ x e. e ≡ refused.Site x };

    fn from(fault: Fault) -> Refused {
        Refused::Site(fault)
    }
}

impl From<Refusal> for Refused {
    ghost from_gives = { λ r e. e ≡ refused.By r };

    fn from(refusal: Refusal) -> Refused {
        Refused::By(refusal)
    }
}

// The site file keeps every rule, or its first fault; refusal 10 where it has one.
pub fn check(file: &[u8]) -> Result<(), Fault>
    ensures { Gives (checked file.now) result }
{
    if !rules::header_good(file) {
        return Err(Fault::InHeader);
    }
    let users = Rows::users(file);
    let i = users.first_name_repeated(users.count);
    if i < users.count {
        return Err(Fault::InUser(i as u8));
    }
    Partitions::of(file).check()
}

// The site file keeps every rule.
pub fn is_good(file: &[u8]) -> bool
    ensures { Gives (good_site file.now) result }
{
    check(file).is_ok()
}

// The earlier row of a clashing pair, where `check` has named the later one: the first row that clashes with it. None where
// the fault is no clash.
pub fn earlier_row(file: &[u8], fault: Fault) -> Option<usize>
    requires { checked file.now ≡ Err fault }
    ensures { Finds (fault_row fault) (earlier_row file.now fault) result }
{
    match fault {
        Fault::InHeader => None,
        Fault::InUser(row) => Rows::users(file).earlier_name(usize::from(row)),
        Fault::InPartition(row, breach) => {
            Partitions::of(file).earlier_clash(usize::from(row), breach)
        }
    }
}

// A site file that keeps every rule, which is what looking things up in it relies on.
#[derive(Clone, Copy)]
pub struct Site<'a> {
    pub file: &'a [u8],
    ghost good: { good_site file.now ≡ true },
}

impl<'a> Site<'a> {
    // The site of a file that keeps every rule, or the file's first fault.
    pub fn of(file: &'a [u8]) -> Result<Site<'a>, Fault>
        ensures { MatchResult result (λ site. site.file.now ≡ file.now) (λ fault. checked file.now ≡ Err fault) }
    {
        check(file)?;
        Ok(Site { file })
    }

    // Its partition rows.
    fn partitions(&self) -> Partitions<'a>
        ensures { result.file.now ≡ self.now.file.now }
    {
        Partitions::of(self.file)
    }

    // A user row has this name and this password.
    pub fn has_user(&self, name: [u8; 8], password: [u8; 6]) -> bool
        ensures { Gives (has_user self.now.file.now name password) result }
    {
        let users = Rows::users(self.file);
        match users.find_name(users.count, &name) {
            Some(i) => users.password_is(i, &password),
            None => false,
        }
    }

    // The index of the partition row with this name.
    pub fn partition_named(&self, name: [u8; 8]) -> Option<usize>
        ensures { Finds (partitions self.now.file.now) (index_of_name self.now.file.now name) result }
    {
        let partitions = self.partitions();
        partitions.rows().find_name(partitions.count, &name)
    }

    // The index of the partition row with this volume and number.
    pub fn partition_numbered(&self, volume: Volume, partition: Partition) -> Option<usize>
        ensures { Finds (partitions self.now.file.now) (index_of_number self.now.file.now volume partition) result }
    {
        let partitions = self.partitions();
        partitions.find_number(partitions.count, volume, partition)
    }

    // How many partitions there are.
    pub fn partition_count(&self) -> usize
        ensures { Gives (partitions self.now.file.now) result }
    {
        self.partitions().count
    }

    // Partition row i.
    pub fn partition_row(&self, i: usize) -> PartitionRow
        requires { i < partitions self.now.file.now }
        ensures { Gives (partition_row self.now.file.now i) result }
    {
        self.partitions().row(i)
    }

    // Partition row i has this password.
    pub fn partition_password_is(&self, i: usize, password: [u8; 6]) -> bool
        requires { i < partitions self.now.file.now }
        ensures { Gives (same (partition_password self.now.file.now i) password) result }
    {
        self.partitions().rows().password_is(i, &password)
    }

    // The place of an address; 8 or 9 where it has none.
    pub fn place_in(&self, address: Address) -> Result<Place, Refusal>
        ensures { GivesUnless (placed_in self.now.file.now address).refusal (placed_in self.now.file.now address).place result }
    {
        match self.partition_numbered(address.volume, address.partition) {
            Some(i) => place_on(self.partition_row(i), address),
            None => Err(Refusal::NoSuchPartition),
        }
    }
}

// The place on this row; 9 where the address lies outside it.
fn place_on(row: PartitionRow, address: Address) -> Result<Place, Refusal>
    requires { ranged row ≡ true }
    ensures { GivesUnless (placed_on row address).refusal (placed_on row address).place result }
{
    if !sizes::is_inside(row.size, address) {
        return Err(Refusal::OutsidePartition);
    }
    let track = u32::from(address.track.0);
    let sector = u32::from(address.sector.0);
    Ok(Place {
        volume: row.volume,
        sector: row.first + track * 128 + sector - 1,
    })
}

// The place of an address in any file; the file's first fault, 10, or 8 or 9 where it has none.
pub fn place(file: &[u8], address: Address) -> Result<Place, Refused>
    ensures { Gives (placed_by file.now address) (located result) }
{
    Ok(Site::of(file)?.place_in(address)?)
}
