// The frame table: the code of each command, and the length of its frame.
ghost use Rattle.std.specs.Prelude.{◌≡◌};
ghost use Rattle.rows.specs.Outcomes.{Gives};
ghost use Rattle.frames.specs.Codes.{byte_of, Decodes};
ghost use Rattle.frames.specs.Table.{frame_length, carries_address};

use refusals::Refusal;

// What a frame begins with: one code a command.
#[derive(Clone, Copy, Debug, PartialEq, Eq)]
pub enum Code {
    Acknowledge,
    Read,
    Write,
    Login,
    Assign,
    Lock,
    Unlock,
    Clear,
    Logout,
}

impl From<Code> for u8 {
    ghost from_gives = { λ code byte. byte ≡ byte_of code };

    fn from(code: Code) -> u8 {
        match code {
            Code::Acknowledge => 0x41,
            Code::Read => 0x11,
            Code::Write => 0x12,
            Code::Login => 0x13,
            Code::Assign => 0x17,
            Code::Lock => 0x19,
            Code::Unlock => 0x1A,
            Code::Clear => 0x1B,
            Code::Logout => 0x1F,
        }
    }
}

// A byte that is no code is refused: 3.
impl TryFrom<u8> for Code {
    type Error = Refusal;

    ghost try_from_gives = { Decodes };

    fn try_from(byte: u8) -> Result<Code, Refusal> {
        match byte {
            0x41 => Ok(Code::Acknowledge),
            0x11 => Ok(Code::Read),
            0x12 => Ok(Code::Write),
            0x13 => Ok(Code::Login),
            0x17 => Ok(Code::Assign),
            0x19 => Ok(Code::Lock),
            0x1A => Ok(Code::Unlock),
            0x1B => Ok(Code::Clear),
            0x1F => Ok(Code::Logout),
            _ => Err(Refusal::UnknownCode),
        }
    }
}

impl Code {
    // The length of the frame with this code.
    #[tactic(auto, unfolding(crate::specs::Table::frame_length, crate::specs::Table::length_in, crate::specs::Table::frame_table))]
    pub fn frame_length(self) -> usize
        ensures { result ≡ frame_length (byte_of self) }
    {
        match self {
            Code::Acknowledge => 1,
            Code::Read => 8,
            Code::Write => 8,
            Code::Login => 20,
            Code::Assign => 15,
            Code::Lock => 15,
            Code::Unlock => 15,
            Code::Clear => 1,
            Code::Logout => 2,
        }
    }

    // The command's fields are dtn, src and an address: a read or a write.
    #[tactic(auto, unfolding(crate::specs::Table::carries_address))]
    pub fn has_address(self) -> bool
        ensures { result ≡ carries_address (byte_of self) }
    {
        match self {
            Code::Read | Code::Write => true,
            _ => false,
        }
    }
}

// The length of the frame that begins with this byte, or 0 for a byte that is no code.
pub fn frame_length(code: u8) -> usize
    ensures { Gives (frame_length code) result }
{
    match Code::try_from(code) {
        Ok(code) => code.frame_length(),
        Err(_) => 0,
    }
}

// A frame that begins with this byte has dtn, src and an address. One that begins with no code has none.
#[tactic(auto, using(crate::proofs::TableLaws::unknown_bare))]
pub fn has_address(code: u8) -> bool
    ensures { Gives (carries_address code) result }
{
    match Code::try_from(code) {
        Ok(code) => code.has_address(),
        Err(_) => false,
    }
}
