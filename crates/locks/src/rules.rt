// The rules of the lock table, row by row.
ghost use Rattle.std.specs.Prelude.{◌≡◌, ◌*◌, ◌≤◌, length};
ghost use Rattle.rows.specs.Numbers.{bit_at};
ghost use Rattle.rows.specs.Words.{all};
ghost use Rattle.locks.specs.Good.{sound_row, sound_at};

use crate::ROW;

// A row by itself: free with zeros, or used by somebody who is logged in, with a legal length and zeros after the string. The
// word says who is logged in, by bit n for number n.
#[tactic(auto, unfolding(crate::specs::Good::sound_row, crate::specs::Row::owner, terms::specs::Tables::is_free, terms::specs::Tables::string_in, terms::specs::Strings::string_at, terms::specs::Strings::legal))]
fn row_good(r: &[u8], word: u64) -> bool
    requires { length r.now ≡ 16 }
    ensures { result ≡ sound_row (bit_at word) r.now }
{
    if r[0] == 0xFF {
        return rows::is_zero(rows::part(r, 1, 15));
    }
    let len = usize::from(r[1]);
    rows::is_bit(word, usize::from(r[0]))
        && 1 <= len
        && len <= 13
        && rows::is_zero(rows::part(r, 2 + len, 14 - len))
}

// Each of the first n rows keeps the rules by itself.
#[tactic(auto, using(rows::proofs::IndexLaws::pass_on, rows::proofs::IndexLaws::pass_ends, rows::proofs::RowLaws::length_part), unfolding(rows::specs::Words::all, crate::specs::Good::sound_at))]
pub fn rows_good(table: &[u8], n: usize, word: u64) -> bool
    requires { 16 * n ≤ length table.now }
    ensures { result ≡ all (sound_at (bit_at word) table.now) n }
{
    for i in 0..n {
        if !row_good(rows::part(table, ROW * i, ROW), word) {
            return false;
        }
    }
    true
}
