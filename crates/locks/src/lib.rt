// The lock table: rows of 16 lent bytes, as many as the slice has. Owner, length, 13 string bytes, spare; owner FF is free.
#![tactic(auto)]

mod row;
mod rules;

ghost use Rattle.std.specs.Prelude.{◌≡◌, ◌+◌, ◌*◌, ◌≤◌, ◌<◌, length};
ghost use Rattle.rows.specs.Numbers.{bit_at};
ghost use Rattle.rows.specs.Rows.{row as row_at, set_row};
ghost use Rattle.rows.specs.Outcomes.{Gives, Leaves, Finds};
ghost use Rattle.terms.specs.Statuses.{byte_of};
ghost use Rattle.locks.specs.Row.{freed};
ghost use Rattle.locks.specs.Table.{row_count, lowest_free as lowest_free_of, lock_status, lock_table, unlock_status, unlock_table, cleared_table};
ghost use Rattle.locks.specs.Good.{locks as lock_count, good_locks, fresh_locks};

use terms::{LockString, Status};

pub const LOCKS: usize = 64;

pub const ROW: usize = 16;

pub const BYTES: usize = 1024;

const FREE_ROW: [u8; 16] = [0xFF, 0, 0, 0, 0, 0, 0, 0, 0, 0, 0, 0, 0, 0, 0, 0];

// The lowest free row.
#[tactic(auto, unfolding(crate::specs::Table::lowest_free))]
fn lowest_free(table: &[u8]) -> Option<usize>
    ensures { Finds (row_count table.now) (lowest_free_of table.now) result }
{
    row::strings(table).first_free()
}

// Lock: 02 for an illegal length, 81 held by the sender, 01 held by another, 82 no free row, 00 granted.
pub fn lock(table: &mut [u8], who: u8, s: LockString) -> Status
    ensures { Leaves (lock_status table.old who s) (lock_table table.old who s) (byte_of result) table.new }
{
    if !terms::is_legal(s) {
        return Status::NotYours;
    }
    if let Some(at) = row::find_string(table, s) {
        if row::owner_of(table, at) == who {
            return Status::AlreadyYours;
        }
        return Status::HeldByAnother;
    }
    let Some(free) = lowest_free(table) else {
        return Status::NoRoom;
    };
    row::fill(table, free, who, s);
    Status::Granted
}

// Unlock: a string of legal length that the sender holds is freed, 00; anything else 02.
pub fn unlock(table: &mut [u8], who: u8, s: LockString) -> Status
    ensures { Leaves (unlock_status table.old who s) (unlock_table table.old who s) (byte_of result) table.new }
{
    if !terms::is_legal(s) {
        return Status::NotYours;
    }
    let Some(at) = row::find_string(table, s) else {
        return Status::NotYours;
    };
    if row::owner_of(table, at) != who {
        return Status::NotYours;
    }
    rows::put(table, ROW * at, &FREE_ROW);
    Status::Granted
}

// Frees row i where it is `who`'s.
#[tactic(auto, using(rows::proofs::RowLaws::put_part), unfolding(crate::specs::Row::freed, crate::specs::Table::owner_at))]
fn free_if_of(table: &mut [u8], i: usize, who: u8)
    requires { 16 * i + 16 ≤ length table.old }
    ensures { table.new ≡ set_row 16 table.old i (freed who (row_at 16 table.old i)) }
{
    if row::owner_of(table, i) == who {
        rows::put(table, ROW * i, &FREE_ROW);
    }
}

// Frees every row of `who`: clear all locks, and a part of each logout.
pub fn free_all(table: &mut [u8], who: u8)
    ensures { table.new ≡ cleared_table table.old who }
{
    for i in 0..table.len() / ROW {
        free_if_of(table, i, who);
    }
}

// The lock table keeps the rules, where the word says who is logged in, by bit n for number n.
#[tactic(auto, unfolding(crate::specs::Good::good_locks, crate::specs::Good::sound_rows))]
pub fn is_good(table: &[u8], word: u64) -> bool
    ensures { Gives (good_locks (bit_at word) table.now) result }
{
    if table.len() != BYTES || !rules::rows_good(table, LOCKS, word) {
        return false;
    }
    row::strings(table).rows_alone()
}

// Leaves 64 free rows.
pub fn fresh(table: &mut [u8])
    requires { length table.old ≡ 16 * lock_count }
    ensures { table.new ≡ fresh_locks }
{
    rows::fill(table, LOCKS, &FREE_ROW);
}
