// One row of the lock table, and the search for a string.
ghost use Rattle.std.specs.Prelude.{◌≡◌, ◌+◌, ◌*◌, ◌≤◌, length};
ghost use Rattle.rows.specs.Outcomes.{Finds};
ghost use Rattle.rows.specs.Rows.{set_row};
ghost use Rattle.locks.specs.Row.{lock_rows, row_of};
ghost use Rattle.locks.specs.Table.{row_count, held_at, owner_at};

use crate::ROW;
use terms::LockString;
use terms::table::{Shape, Table};

// The owner of row i. The bound on i stands here, in fill and in free_if_of: it is over a table that is lent by & or by &mut, so a
// type that keeps it would be two.
#[tactic(auto, using(rows::proofs::RowLaws::head_part), unfolding(crate::specs::Table::owner_at, crate::specs::Row::owner))]
pub fn owner_of(table: &[u8], i: usize) -> u8
    requires { 16 * i + 16 ≤ length table.now }
    ensures { result ≡ owner_at table.now i }
{
    table[ROW * i]
}

// The rows as they hold their strings. A station has the same over a shape of its own: the shape is all that it says.
pub fn strings(table: &[u8]) -> Table<'_>
    ensures bytes { result.bytes.now ≡ table.now }
    ensures shape { result.shape ≡ lock_rows }
    ensures count { result.count ≡ row_count table.now }
{
    Table {
        bytes: table,
        shape: Shape {
            width: ROW,
            string: 1,
            free: 0xFF,
        },
        count: table.len() / ROW,
    }
}

// The row that holds s.
#[tactic(auto, unfolding(crate::specs::Table::held_at))]
pub fn find_string(table: &[u8], s: LockString) -> Option<usize>
    ensures { Finds (row_count table.now) (held_at table.now s) result }
{
    strings(table).find(s)
}

// The row of `who` that holds s.
fn row_of(who: u8, s: LockString) -> [u8; 16]
    ensures { result ≡ row_of who s }
{
    let mut r = [0u8; 16];
    r[0] = who;
    terms::put_string(&mut r, 1, terms::normal(s));
    r
}

// Puts s down as row i, in the name of `who`.
pub fn fill(table: &mut [u8], i: usize, who: u8, s: LockString)
    requires { 16 * i + 16 ≤ length table.old }
    ensures { table.new ≡ set_row 16 table.old i (row_of who s) }
{
    rows::put(table, ROW * i, &row_of(who, s));
}
