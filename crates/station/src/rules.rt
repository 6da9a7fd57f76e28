// The rules of a station's state, place by place, and of the frame awaited.
ghost use Rattle.std.specs.Prelude.{◌≡◌, length};
ghost use Rattle.rows.specs.Words.{all};
ghost use Rattle.station.specs.State.{place_count};
ghost use Rattle.station.specs.Good.{good_place, good_at, in_front, good_list, good_wait};

use crate::list;
use crate::wait::WAIT;
use frames::Code;

// A place by itself: unused and zero, or a legal string with zeros after it.
fn place_good(r: &[u8]) -> bool
    requires { length r.now ≡ 14 }
    ensures { result ≡ good_place r.now }
{
    let len = usize::from(r[0]);
    len <= 13 && rows::is_zero(&r[1 + len..])
}

// Each place keeps the rules by itself.
#[tactic(auto, using(rows::proofs::IndexLaws::pass_on, rows::proofs::IndexLaws::pass_breaks, rows::proofs::IndexLaws::pass_ends), unfolding(rows::specs::Words::all, crate::specs::Good::good_at))]
fn places_good(list: &[u8]) -> bool
    ensures { result ≡ all (good_at list.now) (place_count list.now) }
{
    for i in 0..list.len() / list::PLACE {
        if !place_good(rows::part(list, list::PLACE * i, list::PLACE)) {
            return false;
        }
    }
    true
}

// No used place after an unused one.
fn used_first(list: &[u8]) -> bool
    ensures { result ≡ all (in_front list.now) (place_count list.now) }
{
    let Some(unused) = list::first_unused(list) else {
        return true;
    };
    for i in unused..list.len() / list::PLACE {
        if !list::is_unused(list, i) {
            return false;
        }
    }
    true
}

// The places keep the rules, together too.
pub fn list_good(list: &[u8]) -> bool
    ensures { result ≡ good_list (place_count list.now) list.now }
{
    if !places_good(list) {
        return false;
    }
    used_first(list) && list::strings(list).rows_alone()
}

// The 15 bytes awaited are a lock, an unlock, a clear with zeros after it, or zeros.
#[tactic(auto, using(crate::proofs::WaitLaws::no_code, crate::proofs::WaitLaws::clear_code), unfolding(crate::specs::Good::good_wait, crate::specs::State::code_in))]
pub fn wait_good(wait: &[u8; WAIT]) -> bool
    ensures { result ≡ good_wait wait.now }
{
    match Code::try_from(wait[0]) {
        Ok(Code::Lock | Code::Unlock) => true,
        Ok(Code::Clear) => rows::is_zero(&wait[1..]),
        Ok(_) => false,
        Err(_) => rows::is_zero(wait),
    }
}
