// The records as one row of 64 stations, as the poll turn is lent them: the check, which also says who is logged in, and
// the bytes in which such a row stands.
ghost use Rattle.std.specs.Prelude.{◌≡◌, ◌*◌, ◌<◌, length};
ghost use Rattle.rows.specs.Outcomes.{Gives};
ghost use Rattle.rows.specs.Rows.{row};
ghost use Rattle.who.specs.Records.{flag, station_of, flagged};
ghost use Rattle.who.specs.Good.{numbers, is_row, stations_of};
ghost use Rattle.who.specs.Row.{vacant as vacant_of};
ghost use Rattle.who.specs.Inner.{word_of, roll_of};

use crate::{NUMBERS, RECORD, Station};

// A record that is zero and no throughout.
pub fn vacant() -> Station
    ensures { Gives vacant_of result }
{
    Station {
        logged: false,
        misses: 0,
        slow: 0,
        name: [0; 8],
        serial: [0; 4],
        product: 0,
        found: false,
    }
}

// Who of the lent row is logged in, as a word with bit n for number n; a row that breaks the rules has none. The last record
// comes first, so that number n ends up as bit n.
#[tactic(auto, unfolding(crate::specs::Inner::roll_of, crate::specs::Good::good_row))]
pub fn roll_call(row: &[Station]) -> Option<u64>
    ensures { Gives (roll_of row.now) result }
{
    if row.len() != NUMBERS {
        return None;
    }
    let mut word = 0;
    for n in (0..NUMBERS).rev() {
        if !crate::station_good(n, row[n]) {
            return None;
        }
        word = u64::from(row[n].logged) + 2 * word;
    }
    Some(word)
}

// 1 where number n is logged in. The length stands in contracts, here and in fresh, and in no array's type: the records are a slice
// of what the master is lent, by & or by &mut, and their length is tested once for a frame.
#[tactic(auto, using(rows::proofs::RowLaws::head_part), unfolding(crate::specs::Records::flag, crate::specs::Records::station_of))]
fn bit_of(records: &[u8], n: usize) -> u64
    requires { (length records.now ≡ 18 * numbers) × (n < numbers) }
    ensures { result ≡ flag (station_of (row 18 records.now n)).logged }
{
    u64::from(records[RECORD * n] == 1)
}

// Who is logged in as a word, bit n for number n, from the records in bytes.
pub fn word_of(records: &[u8]) -> u64
    requires { length records.now ≡ 18 * numbers }
    ensures { result ≡ word_of (stations_of records.now) }
{
    let mut word = 0;
    for n in (0..NUMBERS).rev() {
        word = bit_of(records, n) + 2 * word;
    }
    word
}

// The flags of record n are 0 or 1.
#[tactic(auto, using(rows::proofs::RowLaws::head_part, rows::proofs::RowLaws::get_d_part), unfolding(crate::specs::Records::flagged))]
fn is_flagged(records: &[u8], n: usize) -> bool
    requires { (length records.now ≡ 18 * numbers) × (n < numbers) }
    ensures { result ≡ flagged (row 18 records.now n) }
{
    let at = RECORD * n;
    records[at] <= 1 && records[at + 17] <= 1
}

// A row stands in these bytes: 64 records with flags 0 or 1.
#[tactic(auto, using(rows::proofs::IndexLaws::pass_on), unfolding(crate::specs::Good::is_row, rows::specs::Words::all))]
pub fn is_row(records: &[u8]) -> bool
    ensures { Gives (is_row records.now) result }
{
    if records.len() != crate::BYTES {
        return false;
    }
    for n in 0..NUMBERS {
        if !is_flagged(records, n) {
            return false;
        }
    }
    true
}
