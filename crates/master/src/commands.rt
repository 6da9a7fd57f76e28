// What each command does, over good tables and a good site file.
ghost use Rattle.std.specs.Prelude.{◌≡◌, Result, Ok, true, false, ◌||◌, ◌<◌, eqb};
ghost use Rattle.frames.specs.Table.{LOGIN};
ghost use Rattle.frames.specs.Writing.{code_of};
ghost use Rattle.rows.specs.Words.{same, zeros};
ghost use Rattle.site.specs.Layout.{partitions, partition_password};
ghost use Rattle.site.specs.Places.{placed_in};
ghost use Rattle.who.specs.Good.{good_records, numbers};
ghost use Rattle.master.specs.Tables.{good_tables};
ghost use Rattle.master.specs.Answers.{answers, told, assign_bytes};
ghost use Rattle.master.specs.Frames.{place_told, assign_answer};
ghost use Rattle.master.specs.Inner.{LogsIn, LogsOut, LogsOldOut, Performs};

use crate::Answer;
use frames::{Command, Request};
use rows::LowFirst;
use site::{Refused, Site};
use terms::{Address, Partition, Status, Volume};
use who::Station;

// Read, write: the place.
fn place(site: &Site, address: Address) -> Result<Answer, Refused>
    ensures { told result ≡ place_told (placed_in site.now.file.now address) }
{
    let place = site.place_in(address)?;
    Ok(Answer::At(place))
}

// Login: the lowest free number is logged in.
fn log_in(q: Request, product: u8, site: &Site, records: &mut [u8]) -> Answer
    requires { good_records records.old ≡ true }
    ensures { LogsIn q product site.now.file.now records.old result records.new }
{
    let sent = u32::low_first_at(&q.serial, 0);
    let Some(number) = who::lowest_number(records) else {
        return Answer::LoggedIn {
            number: 0,
            found: false,
            serial: sent,
        };
    };
    let found = site.has_user(q.name, q.password);
    let station = Station {
        logged: true,
        misses: 0,
        slow: 0,
        name: q.name,
        serial: q.serial,
        product,
        found,
    };
    who::put_station(records, number, station);
    Answer::LoggedIn {
        number: number as u8,
        found,
        serial: sent,
    }
}

// FF 00 00 00.
fn denied() -> Answer
    ensures { told (Ok result) ≡ answers (assign_bytes 0xFF 0 0 0) }
{
    Answer::Assigned {
        size: 0xFF,
        partition: Partition(0),
        control: 0,
        volume: Volume(0),
    }
}

// The sent password is six zeros, or that of partition row i.
fn password_fits(site: &Site, i: usize, password: [u8; 6]) -> bool
    requires { i < partitions site.now.file.now }
    ensures { result ≡ zeros password || same (partition_password site.now.file.now i) password }
{
    rows::is_zero(&password) || site.partition_password_is(i, password)
}

// Assign: the row with that name, if the password fits.
fn assign(q: Request, site: &Site) -> Answer
    ensures { told (Ok result) ≡ assign_answer q site.now.file.now }
{
    let Some(i) = site.partition_named(q.name) else {
        return denied();
    };
    if !password_fits(site, i, q.password) {
        return denied();
    }
    let row = site.partition_row(i);
    Answer::Assigned {
        size: row.size,
        partition: row.partition,
        control: row.control,
        volume: row.volume,
    }
}

// Logout, instant or by silence: the station's locks are freed and its record is cleared.
pub fn log_out(number: u8, locks: &mut [u8], records: &mut [u8])
    requires { (good_records records.old ≡ true) × (number < numbers) }
    ensures { LogsOut number locks.old records.old locks.new records.new }
{
    locks::free_all(locks, number);
    who::log_out(records, number as usize);
}

// Before a login: every number with its serial is logged out, but for serial 00 00 00 00. The records are walked once. That the tables
// are good is asked here and no type says it: a command leaves other tables, and `frame_keeps` says of all commands that these are good.
fn log_old_out(serial: [u8; 4], locks: &mut [u8], records: &mut [u8])
    requires { good_tables locks.old records.old ≡ true }
    ensures { LogsOldOut serial locks.old records.old locks.new records.new }
{
    if rows::is_zero(&serial) {
        return;
    }
    for n in 0..who::NUMBERS {
        if who::has_serial(records, n, serial) {
            log_out(n as u8, locks, records);
        }
    }
}

// What a request does at a number. A number that is not logged in may only log in.
pub fn perform(
    number: u8,
    q: Request,
    site: &Site,
    locks: &mut [u8],
    records: &mut [u8],
) -> Result<Answer, Refused>
    requires records_value { good_tables locks.old records.old ≡ true }
    requires number_lt_numbers { eqb (code_of q.command) LOGIN ≡ false → number < numbers }
    ensures { Performs q number site.now.file.now locks.old records.old result locks.new records.new }
{
    match q.command {
        Command::Acknowledge => Ok(Answer::Nothing),
        Command::Read { src: _, address } => place(site, address),
        Command::Write { src: _, address } => place(site, address),
        Command::Login { product } => {
            log_old_out(q.serial, locks, records);
            Ok(log_in(q, product, site, records))
        }
        Command::Assign => Ok(assign(q, site)),
        Command::Lock => Ok(Answer::Status(locks::lock(locks, number, q.string))),
        Command::Unlock => Ok(Answer::Status(locks::unlock(locks, number, q.string))),
        Command::Clear => {
            locks::free_all(locks, number);
            Ok(Answer::Status(Status::Granted))
        }
        Command::Logout { src: _ } => {
            log_out(number, locks, records);
            Ok(Answer::Nothing)
        }
    }
}
