// One poll turn: the refusals that the tables and the number give, and the turn of one record.
ghost use Rattle.std.specs.Prelude.{◌≡◌, true, not, ◌&&◌};
ghost use Rattle.rows.specs.Numbers.{bit_at};
ghost use Rattle.refusals.specs.Outcomes.{refusal_in};
ghost use Rattle.who.specs.Good.{good_counts};
ghost use Rattle.locks.specs.Good.{good_locks};
ghost use Rattle.master.specs.Inner.{seat_refusal, MakesTurn};

use crate::{Turned, checks};
use refusals::Refusal;
use who::Station;

// 11 for the lock table, 2 or 5. The word says who is logged in.
#[tactic(auto, unfolding(crate::specs::Inner::seat_refusal, crate::specs::Polls::turn_refusal, crate::specs::Refusals::unknown))]
pub fn may_turn(number: u32, word: u64, locks: &[u8]) -> Result<(), Refusal>
    ensures { refusal_in result ≡ seat_refusal (good_locks (bit_at word) locks.now) (bit_at word) number }
{
    if !locks::is_good(locks, word) {
        return Err(Refusal::BadTables);
    }
    if checks::is_unknown(number, rows::is_bit(word, number as usize)) {
        return Err(Refusal::NobodysNumber);
    }
    if number == 0 || number == checks::ANYBODY {
        return Err(Refusal::Misplaced);
    }
    Ok(())
}

// Heard in a turn that was not due.
fn is_early(heard: bool, due: bool) -> bool
    ensures { result ≡ heard && not due }
{
    heard && !due
}

// The turn of a record that is logged in: 12, or the turn. A station that is out loses its locks and its record.
pub fn turn(
    polled: &mut Station,
    number: u8,
    heard: bool,
    locks: &mut [u8],
) -> Result<Turned, Refusal>
    requires { good_counts polled.old.misses polled.old.slow ≡ true }
    ensures { MakesTurn number polled.old heard locks.old result locks.new polled.new }
{
    let turn = who::turn_of(polled.misses, polled.slow, heard);
    if is_early(heard, turn.due) {
        return Err(Refusal::HeardTooEarly);
    }
    if turn.out {
        locks::free_all(locks, number);
        *polled = who::lent::vacant();
    } else {
        polled.misses = turn.misses;
        polled.slow = turn.slow;
    }
    Ok(Turned {
        due: turn.due,
        out: turn.out,
    })
}
