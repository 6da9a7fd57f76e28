// The login table: one record of 18 lent bytes for each user number. Who is logged in, the lowest free number, login and
// logout, and the check of the records.
#![tactic(auto)]

pub mod lent;

ghost use Rattle.std.specs.Prelude.{◌≡◌, ◌+◌, ◌*◌, ◌≤◌, length, true};
ghost use Rattle.rows.specs.Rows.{row, set_row};
ghost use Rattle.rows.specs.Outcomes.{Gives, Finds};
ghost use Rattle.who.specs.Records.{bytes_of, station_of};
ghost use Rattle.who.specs.Good.{good_counts, plain, good_station, numbers, good_records};
ghost use Rattle.who.specs.Logins.{logged_in, has_serial, free_number, record_count, lowest_number, after_logout, fresh_records};
ghost use Rattle.who.specs.Turns.{is_due, turn_of};

use rows::LowFirst;

pub const NUMBERS: usize = 64;

pub const RECORD: usize = 18;

pub const BYTES: usize = 1152;

const NOBODY: [u8; 18] = [0, 0, 0, 0, 0, 0, 0, 0, 0, 0, 0, 0, 0, 0, 0, 0, 0, 0];

const LOCAL_USER: [u8; 18] = [1, 0, 0, 0, 0, 0, 0, 0, 0, 0, 0, 0, 0, 0, 0, 0, 0, 0];

// One station: the seven fields of its record.
#[derive(Clone, Copy, Debug, PartialEq, Eq)]
pub struct Station {
    pub logged: bool,
    pub misses: u16,
    pub slow: u8,
    pub name: [u8; 8],
    pub serial: [u8; 4],
    pub product: u8,
    pub found: bool,
}

// The record of a station.
fn bytes_of(s: Station) -> [u8; 18]
    ensures { result ≡ bytes_of s }
{
    let [low, high] = s.misses.to_le_bytes();
    let head = [u8::from(s.logged), low, high, s.slow];
    let tail = [s.product, u8::from(s.found)];
    let mut r = [0u8; 18];
    rows::put(&mut r, 0, &head);
    rows::put(&mut r, 4, &s.name);
    rows::put(&mut r, 12, &s.serial);
    rows::put(&mut r, 16, &tail);
    r
}

// The station of record n. The bound on n stands here, in put_station and in log_out: it is over slices that are lent by & or by
// &mut, so a type that keeps it would be two.
#[tactic(auto, using(rows::proofs::RowLaws::head_part, rows::proofs::RowLaws::get_d_part, rows::proofs::RowLaws::part_part), unfolding(crate::specs::Records::station_of))]
pub fn station_at(records: &[u8], n: usize) -> Station
    requires { 18 * n + 18 ≤ length records.now }
    ensures { result ≡ station_of (row 18 records.now n) }
{
    let at = RECORD * n;
    Station {
        logged: records[at] == 1,
        misses: u16::low_first_at(records, at + 1),
        slow: records[at + 3],
        name: rows::array_at(records, at + 4),
        serial: rows::array_at(records, at + 12),
        product: records[at + 16],
        found: records[at + 17] == 1,
    }
}

// Puts a station down as record n: a login, or a turn.
pub fn put_station(records: &mut [u8], n: usize, s: Station)
    requires { 18 * n + 18 ≤ length records.old }
    ensures { records.new ≡ set_row 18 records.old n (bytes_of s) }
{
    rows::put(records, RECORD * n, &bytes_of(s));
}

// Clears record n.
#[tactic(auto, unfolding(crate::specs::Logins::after_logout))]
pub fn log_out(records: &mut [u8], n: usize)
    requires { 18 * n + 18 ≤ length records.old }
    ensures { records.new ≡ after_logout records.old n }
{
    rows::put(records, RECORD * n, &NOBODY);
}

// Number n is logged in.
#[tactic(auto, unfolding(crate::specs::Logins::logged_in))]
pub fn is_in(records: &[u8], n: usize) -> bool
    ensures { Gives (logged_in records.now n) result }
{
    n < records.len() / RECORD && records[RECORD * n] == 1
}

// A login may give number n.
#[tactic(auto, unfolding(crate::specs::Logins::free_number))]
fn is_free(records: &[u8], n: usize) -> bool
    ensures { result ≡ free_number records.now n }
{
    1 <= n && !is_in(records, n)
}

// The lowest free number from 1 on. A `for`, as every search here and below: with `(0..n).find(..)` what it answers stayed open.
#[tactic(auto, using(rows::proofs::IndexLaws::search_on, rows::proofs::IndexLaws::search_hit, rows::proofs::IndexLaws::search_ends), unfolding(rows::specs::Words::any, crate::specs::Logins::lowest_number))]
pub fn lowest_number(records: &[u8]) -> Option<usize>
    ensures { Finds (record_count records.now) (lowest_number records.now) result }
{
    for n in 0..records.len() / RECORD {
        if is_free(records, n) {
            return Some(n);
        }
    }
    None
}

// Number n, from 1 on, is logged in with this serial.
#[tactic(auto, using(crate::proofs::WhoLaws::logged_inside, rows::proofs::RowLaws::part_part), unfolding(crate::specs::Logins::has_serial, crate::specs::Records::station_of))]
pub fn has_serial(records: &[u8], n: usize, serial: [u8; 4]) -> bool
    ensures { Gives (has_serial records.now serial n) result }
{
    if n < 1 || !is_in(records, n) {
        return false;
    }
    rows::is_same(rows::part(records, RECORD * n + 12, 4), &serial)
}

// Misses and slow turns are in range.
#[tactic(auto, unfolding(crate::specs::Good::good_counts))]
fn counts_good(misses: u16, slow: u8) -> bool
    ensures { result ≡ good_counts misses slow }
{
    misses <= 255 && slow <= 11 && (160 <= misses || slow == 0)
}

// All but `logged in` is zero or no.
#[tactic(auto, unfolding(crate::specs::Good::plain))]
fn is_plain(s: Station) -> bool
    ensures { result ≡ plain s }
{
    s.misses == 0
        && s.slow == 0
        && rows::is_zero(&s.name)
        && rows::is_zero(&s.serial)
        && s.product == 0
        && !s.found
}

// The record of number n keeps the rules. The counts of a record that is zero are in range.
#[tactic(auto, using(crate::proofs::RecordLaws::plain_counts), unfolding(crate::specs::Good::good_station))]
fn station_good(n: usize, s: Station) -> bool
    ensures { result ≡ good_station n s }
{
    if n == 0 {
        return s.logged && is_plain(s);
    }
    if s.logged {
        counts_good(s.misses, s.slow)
    } else {
        is_plain(s)
    }
}

// The 64 records keep the rules: a row stands in the bytes, and each record of it is good.
#[tactic(auto, using(rows::proofs::IndexLaws::pass_on, rows::proofs::IndexLaws::pass_ends, crate::proofs::RowLaws::row_each, crate::proofs::RowLaws::row_is), unfolding(rows::specs::Words::all, crate::specs::Good::good_records))]
pub fn is_good(records: &[u8]) -> bool
    ensures { Gives (good_records records.now) result }
{
    if !lent::is_row(records) {
        return false;
    }
    for n in 0..NUMBERS {
        if !station_good(n, station_at(records, n)) {
            return false;
        }
    }
    true
}

// Leaves only user 0 logged in.
#[tactic(auto, using(crate::proofs::WhoLaws::fresh_made))]
pub fn fresh(records: &mut [u8])
    requires { length records.old ≡ 18 * numbers }
    ensures { records.new ≡ fresh_records }
{
    rows::fill(records, NUMBERS, &NOBODY);
    rows::put(records, 0, &LOCAL_USER);
}

// What one poll turn does: was the station due, is it out, and its counts after the turn.
#[derive(Clone, Copy, Debug, PartialEq, Eq)]
pub struct Turn {
    pub due: bool,
    pub out: bool,
    pub misses: u16,
    pub slow: u8,
}

// A station with these misses and slow turns is due in its next turn.
#[tactic(auto, unfolding(crate::specs::Turns::is_due))]
pub fn is_due(misses: u16, slow: u8) -> bool
    ensures { Gives (is_due misses slow) result }
{
    misses < 160 || slow == 11
}

// One poll turn of a station with these misses and slow turns, heard or not.
#[tactic(auto, using(crate::proofs::RecordLaws::counts_is), unfolding(crate::specs::Turns::turn_of, crate::specs::Turns::is_out, crate::specs::Turns::misses_after, crate::specs::Turns::slow_after))]
pub fn turn_of(misses: u16, slow: u8, heard: bool) -> Turn
    requires { good_counts misses slow ≡ true }
    ensures { result ≡ turn_of misses slow heard }
{
    if !is_due(misses, slow) {
        return Turn {
            due: false,
            out: false,
            misses,
            slow: slow + 1,
        };
    }
    if heard {
        return Turn {
            due: true,
            out: false,
            misses: 0,
            slow: 0,
        };
    }
    Turn {
        due: true,
        out: misses == 255,
        misses: misses + 1,
        slow: 0,
    }
}
