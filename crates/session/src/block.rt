// A block of input: its whole records are served one after the other, and a line is written for each.
ghost use Rattle.std.specs.Prelude.{◌≡◌, true, false, ◌+◌, ◌*◌, ◌^◌, ◌≤◌, ◌<◌, MatchOption, length, take, drop};
ghost use Rattle.lines.specs.Line.{ROOM};
ghost use Rattle.session.specs.Records.{number, record_size, whole};
ghost use Rattle.session.specs.Session.{Adds, Plays};

// A session between two records: the site file, the index of the next record, and the tables.
#[derive(Drop)]
pub struct Session<'a> {
    pub site: &'a [u8],
    pub index: u64,
    pub locks: [u8; locks::BYTES],
    pub records: [u8; who::BYTES],
}

// What was played of a block: its bytes up to `at`, and the bytes that its lines take.
#[derive(Clone, Copy)]
pub struct Played {
    pub at: usize,
    pub used: usize,
}

// The record at the front of the input, where it is whole.
#[tactic(auto, unfolding(crate::specs::Records::whole, crate::specs::Records::record_size, crate::specs::Records::frame_size))]
fn first_record(input: &[u8]) -> Option<&[u8]>
    ensures { MatchOption result (whole input.now ≡ false) (λ front. (whole input.now ≡ true) × (front.now ≡ take (record_size input.now) input.now)) }
{
    let size = 2 + usize::from(*input.get(1)?);
    input.get(..size)
}

impl<'a> Session<'a> {
    // A session that begins: fresh tables.
    pub fn new(site: &'a [u8]) -> Session<'a>
        ensures { (result.site.now ≡ site.now) × (result.index ≡ 0) }
    {
        let mut locks = [0u8; locks::BYTES];
        let mut records = [0u8; who::BYTES];
        let _ = master::fresh(&mut locks, &mut records);
        Session {
            site,
            index: 0,
            locks,
            records,
        }
    }

    // Serves one record and writes its line, whose end is answered.
    fn play_record(&mut self, record: &[u8], output: &mut [u8], used: usize) -> usize
        requires { (2 ≤ length record.now) × (used + ROOM ≤ length output.old) × (self.old.index + 1 < 2 ^ 64) }
        ensures adds { Adds self.old.index (number record.now) (drop 2 record.now) self.old.site.now self.old.locks self.old.records output.old used result self.new.locks self.new.records output.new }
        ensures next { (self.new.index ≡ self.old.index + 1) × (self.new.site.now ≡ self.old.site.now) }
    {
        let answer = master::serve(
            u32::from(record[0]),
            &record[2..],
            self.site,
            &mut self.locks,
            &mut self.records,
        );
        let end = lines::write_line(output, used, self.index, record[0], answer);
        self.index += 1;
        end
    }

    // Plays the whole records of the input. There is room for their lines: a record has two bytes or more. The loop counts nothing: a
    // record is as long as it says.
    pub fn play(&mut self, input: &[u8], output: &mut [u8]) -> Played
        requires input_in_bounds { 48 * length input.now ≤ length output.old }
        requires input_bound { self.old.index + length input.now < 2 ^ 64 }
        ensures plays { Plays input.now self.old.index self.old.site.now self.old.locks self.old.records output.old (record { at = result.at; index = self.new.index; used = result.used }) self.new.locks self.new.records output.new }
        ensures same_site { self.new.site.now ≡ self.old.site.now }
    {
        let mut at = 0;
        let mut used = 0;
        while let Some(record) = first_record(&input[at..]) {
            used = self.play_record(record, output, used);
            at += record.len();
        }
        Played { at, used }
    }
}
