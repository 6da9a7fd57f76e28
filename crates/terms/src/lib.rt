// The terms of the rules as types. Volume, partition, track and sector are four types, so that none can be passed where
// another is due. A lock string travels by value, as thirteen bytes beside its length.
#![tactic(auto)]

pub mod names;
pub mod table;

ghost use Rattle.std.specs.Prelude.{◌≡◌, ◌+◌, ◌≤◌, ◌<◌, min, length};
ghost use Rattle.rows.specs.Outcomes.{Gives};
ghost use Rattle.rows.specs.Rows.{put};
ghost use Rattle.terms.specs.Statuses.{byte_of, StatusOf};
ghost use Rattle.terms.specs.Strings.{legal, string_at, string_bytes, key, normal as normal_of};
ghost use Rattle.terms.specs.Shortcuts.{string_hash};

use rows::LowFirst;

#[derive(Clone, Copy, Debug, PartialEq, Eq)]
pub struct Volume(pub u8);

#[derive(Clone, Copy, Debug, PartialEq, Eq)]
pub struct Partition(pub u8);

#[derive(Clone, Copy, Debug, PartialEq, Eq)]
pub struct Track(pub u16);

#[derive(Clone, Copy, Debug, PartialEq, Eq)]
pub struct Sector(pub u8);

// Where a station asks to read or write.
#[derive(Clone, Copy, Debug, PartialEq, Eq)]
pub struct Address {
    pub volume: Volume,
    pub partition: Partition,
    pub track: Track,
    pub sector: Sector,
}

// Where that is on the drive: a sector of the volume, counted from 0.
#[derive(Clone, Copy, Debug, PartialEq, Eq)]
pub struct Place {
    pub volume: Volume,
    pub sector: u32,
}

// A string by itself. It has no `==`, since bytes after its length do not count.
#[derive(Clone, Copy, Debug)]
pub struct LockString {
    pub len: u8,
    pub bytes: [u8; 13],
}

// What a lock or an unlock comes to.
#[derive(Clone, Copy, Debug, PartialEq, Eq)]
pub enum Status {
    Granted,
    NotYours,
    HeldByAnother,
    AlreadyYours,
    NoRoom,
}

// The byte that a station is told.
impl From<Status> for u8 {
    ghost from_gives = { λ s b. b ≡ byte_of s };

    fn from(status: Status) -> u8 {
        match status {
            Status::Granted => 0x00,
            Status::HeldByAnother => 0x01,
            Status::NotYours => 0x02,
            Status::AlreadyYours => 0x81,
            Status::NoRoom => 0x82,
        }
    }
}

// The status of a byte; one that is no status comes back.
impl TryFrom<u8> for Status {
    type Error = u8;

    ghost try_from_gives = { StatusOf };

    fn try_from(byte: u8) -> Result<Status, u8> {
        match byte {
            0x00 => Ok(Status::Granted),
            0x01 => Ok(Status::HeldByAnother),
            0x02 => Ok(Status::NotYours),
            0x81 => Ok(Status::AlreadyYours),
            0x82 => Ok(Status::NoRoom),
            _ => Err(byte),
        }
    }
}

// How many of the thirteen bytes belong to the string.
fn used(len: u8) -> usize
    ensures { result ≡ min len 13 }
{
    usize::from(len).min(13)
}

// The length is 1 to 13.
#[tactic(auto, unfolding(crate::specs::Strings::legal))]
pub fn is_legal(s: LockString) -> bool
    ensures { Gives (legal s) result }
{
    1 <= s.len && s.len <= 13
}

// The string that stands at `at`, its length first, by value.
#[tactic(auto, unfolding(crate::specs::Strings::string_at))]
pub fn string_at(bytes: &[u8], at: usize) -> LockString
    requires { at + 14 ≤ length bytes.now }
    ensures { result ≡ string_at bytes.now at }
{
    LockString {
        len: bytes[at],
        bytes: rows::array_at(bytes, at + 1),
    }
}

// Puts the string down at `at`, its length first: fourteen bytes in all.
#[tactic(auto, using(rows::proofs::RowLaws::put_next))]
pub fn put_string(bytes: &mut [u8], at: usize, s: LockString)
    requires { at + 14 ≤ length bytes.old }
    ensures { (bytes.new ≡ put bytes.old at (string_bytes s)) × (length (string_bytes s) ≡ 14) }
{
    rows::put(bytes, at, &[s.len]);
    rows::put(bytes, at + 1, &s.bytes);
}

// Of a string that stands in fourteen bytes, its length first: its bytes, as many as its length says, where they stand.
#[tactic(auto, using(crate::proofs::StringLaws::key_part))]
fn key_in(string: &[u8; 14]) -> &[u8]
    ensures { result.now ≡ key (string_at string.now 0) }
{
    rows::part(string, 1, used(string[0]))
}

// Its hash: of its thirteen bytes, those after its length too.
#[tactic(auto, using(crate::proofs::StringLaws::hash_string))]
fn hash_in(string: &[u8; 14]) -> usize
    ensures { (result ≡ string_hash (string_at string.now 0)) × (result < 1024) }
{
    let a = u32::low_first_at(string, 1);
    let b = u32::low_first_at(string, 5);
    let c = u32::low_first_at(string, 9);
    rows::marks::hash(a, b, c, u32::from(string[13]))
}

// The string with zeros after its length.
#[tactic(auto, using(crate::proofs::StringLaws::key_used, rows::proofs::RowLaws::over_first), unfolding(crate::specs::Strings::normal))]
pub fn normal(s: LockString) -> LockString
    ensures { Gives (normal_of s) result }
{
    let n = used(s.len);
    let mut bytes = [0u8; 13];
    rows::put(&mut bytes, 0, &s.bytes[..n]);
    LockString { len: s.len, bytes }
}
