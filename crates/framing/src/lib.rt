// The SDLC frame in software (02, Req 04): user number, data, frame check, a zero after five ones, two flags before and two
// after; bits in bytes, low bit first.
#![tactic(auto)]

mod fcs;
mod receive;
mod runs;
mod send;
mod take;
mod zeros;

ghost use Rattle.framing.specs.Reading.{Reads, ReadsStart};
ghost use Rattle.framing.specs.Writing.{Writes};
ghost use Rattle.framing.specs.Inner.{Weighs, Measures};

use refusals::Refusal;
use runs::Span;
use send::Content;

// The register after a content whose check is right.
const GOOD: u16 = 0xf0b8;

// The longest content: user number, 1024 data bytes, check.
const MOST: usize = 1027;

// What reading tells of a frame. The length is that of the data.
#[derive(Clone, Copy, Debug, PartialEq, Eq)]
pub struct Heading {
    pub user: u8,
    pub length: u16,
}

// Where the content stands, and how many of its bytes are data.
#[derive(Clone, Copy)]
struct Measured<'a> {
    span: Span<'a>,
    length: usize,
}

// Writes a frame, and gives the number of its bits: 17 or 13.
pub fn write(user: u8, data: &[u8], bits: &mut [u8]) -> Result<u16, Refusal>
    ensures { Writes user «data».now bits.old result bits.new }
{
    if data.is_empty() || 1024 < data.len() {
        return Err(Refusal::DataTooLong);
    }
    let content = Content::new(user, data);
    let count = content.count();
    if bits.len() < count.div_ceil(8) {
        return Err(Refusal::ShortBuffer);
    }
    content.put_frame(bits);
    Ok(count as u16)
}

// How many bytes of the content in a span are data: 20, 21, 17 or 22.
fn weigh(span: &Span) -> Result<usize, Refusal>
    ensures { Weighs span.now result }
{
    let sum = span.sum();
    if sum.left != 0 {
        return Err(Refusal::NoWholeBytes);
    }
    if sum.bytes < 4 {
        return Err(Refusal::TooFewBytes);
    }
    if MOST < sum.bytes {
        return Err(Refusal::DataTooLong);
    }
    if sum.register != GOOD {
        return Err(Refusal::WrongCheck);
    }
    Ok(sum.bytes - 3)
}

// The content that stands on the line: 18, 19, 20, 21, 17 or 22.
fn measure(s: &[u8], n: usize) -> Result<Measured<'_>, Refusal>
    ensures { Measures s.now n result }
{
    if !receive::opens(s, n) {
        return Err(Refusal::NoFlag);
    }
    let span = receive::find(s, n)?;
    let length = weigh(&span)?;
    Ok(Measured { span, length })
}

// Reads a frame: 18, 19, 20, 21, 17, 22 or 13. The data stand in the buffer.
pub fn read(bits: &[u8], count: usize, data: &mut [u8]) -> Result<Heading, Refusal>
    ensures { Reads bits.now count «data».old result «data».new }
{
    let content = measure(bits, count)?;
    if data.len() < content.length {
        return Err(Refusal::ShortBuffer);
    }
    let user = content.span.deliver(data, content.length);
    let length = content.length as u16;
    Ok(Heading { user, length })
}

// Reads a frame of which the buffer need not hold all data: it gets as many as it holds, and 13 is not refused.
pub fn read_start(bits: &[u8], count: usize, start: &mut [u8]) -> Result<Heading, Refusal>
    ensures { ReadsStart bits.now count start.old result start.new }
{
    let content = measure(bits, count)?;
    let held = content.length.min(start.len());
    let user = content.span.deliver(start, held);
    let length = content.length as u16;
    Ok(Heading { user, length })
}
