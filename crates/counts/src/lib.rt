// Dose counts in packed decimal (document 02, request (e)). A payload holds 124 counts of four bytes, count number `which`
// at byte 4 · which: two digits a byte, the high digit first; four bytes of FF hex mean absent. Over numbers and a lent
// payload alone: no card is needed. `read_count` and `write_count` are the calls; the C functions over them stand in the
// crate pagunlit. A count is a number of hundredths, and None is absent.
#![tactic(auto)]

ghost use Rattle.std.specs.Prelude.{◌≡◌, true, ◌/◌, ◌%◌, ◌<◌, ◌≤◌};
ghost use Rattle.block_bytes.specs.Numbers.{bytes4};
ghost use Rattle.counts.specs.Counts.{pair_of, byte_of, digits, hundredths_of, count_of, read_of};
ghost use Rattle.counts.specs.Counts.{form_of, in_range, write_answer, after_write};
ghost use Rattle.counts.specs.Counts.{number, number_in};
ghost use Rattle.counts.specs.Replies.{count_reply, count_from};

use block_seals::PAYLOAD;

// Why a count is refused: the payload has another length; or it has another digit, is out of range or is not there.
#[derive(Clone, Copy, PartialEq, Eq, Debug)]
pub enum CountError {
    WrongLength,
    WrongCount,
}

impl CountError {
    // The row of the refusal.
    pub fn number(self) -> u32
        ensures { result ≡ number self }
    {
        match self {
            CountError::WrongLength => 3,
            CountError::WrongCount => 16,
        }
    }
}

// How many counts a payload holds.
const COUNTS: u32 = 124;

// One more than the largest number of hundredths.
const LIMIT: u32 = 100000000;

// The number that four bytes of FF make; it stands for absent in C.
const ABSENT: u32 = 4294967295;

// Whether the eight digits of a number's four bytes are 0 to 9. A digit above 9 has its bit 3 and one of its bits 2 and 1:
// with n shifted by two places and by one, all three stand at bit 1 of the digit.
fn all_digits(n: u32) -> bool
    ensures { result ≡ digits (n / 16777216) (n / 65536 % 256) (n / 256 % 256) (n % 256) }
{
    (n / 4) & ((n / 2) | n) & 572662306 == 0
}

// The number of a byte's two digits.
fn pair_of(x: u32) -> u32
    requires { x < 256 }
    ensures { (result ≡ pair_of x) × (result ≤ 165) }
{
    x / 16 * 10 + x % 16
}

// The number of eight digits.
fn hundredths_of(n: u32) -> u32
    ensures { result ≡ hundredths_of (n / 16777216) (n / 65536 % 256) (n / 256 % 256) (n % 256) }
{
    pair_of(n / 16777216) * 1000000
        + pair_of(n / 65536 % 256) * 10000
        + pair_of(n / 256 % 256) * 100
        + pair_of(n % 256)
}

// The count that four bytes hold, of the number stored in them.
fn count_of(n: u32) -> Result<Option<u32>, CountError>
    ensures { result ≡ count_of (n / 16777216) (n / 65536 % 256) (n / 256 % 256) (n % 256) }
{
    if all_digits(n) {
        return Ok(Some(hundredths_of(n)));
    }
    if n == ABSENT {
        return Ok(None);
    }
    Err(CountError::WrongCount)
}

// Reads count number `which` of a payload.
pub fn read_count(payload: &[u8], which: u32) -> Result<Option<u32>, CountError>
    ensures { result ≡ read_of payload.now which }
{
    if payload.len() != PAYLOAD {
        return Err(CountError::WrongLength);
    }
    if which < COUNTS {
        return count_of(block_bytes::get4(payload, 4 * (which as usize)));
    }
    Err(CountError::WrongCount)
}

// The byte with the two digits of a number.
fn byte_of(n: u32) -> u32
    requires { n < 100 }
    ensures { (result ≡ byte_of n) × (result < 256) }
{
    n / 10 * 16 + n % 10
}

// Whether a count can be written.
fn in_range(count: Option<u32>) -> bool
    ensures { result ≡ in_range count }
{
    match count {
        None => true,
        Some(v) => v < LIMIT,
    }
}

// The number whose four bytes are written for a count.
fn stored(count: Option<u32>) -> u32
    requires { in_range count ≡ true }
    ensures { bytes4 result ≡ form_of count }
{
    match count {
        None => ABSENT,
        Some(v) => byte_of(v / 1000000) * 16777216
            + byte_of(v / 10000 % 100) * 65536
            + byte_of(v / 100 % 100) * 256
            + byte_of(v % 100),
    }
}

// Writes count number `which` of a payload: those four bytes and no others.
pub fn write_count(payload: &mut [u8], which: u32, count: Option<u32>) -> Result<(), CountError>
    ensures { (number_in result ≡ write_answer payload.old which count)
        × (payload.new ≡ after_write payload.old which count) }
{
    if payload.len() != PAYLOAD {
        return Err(CountError::WrongLength);
    }
    if which >= COUNTS {
        return Err(CountError::WrongCount);
    }
    if in_range(count) {
        let at = 4 * (which as usize);
        block_bytes::put4(&mut payload[at..at + 4], stored(count));
        return Ok(());
    }
    Err(CountError::WrongCount)
}

// ---- counts as C has them

// What a read hands to C: 0 or the refusal's number, and the hundredths.
#[repr(C)]
#[derive(Clone, Copy)]
pub struct CountReply {
    pub number: u32,
    pub hundredths: u32,
}

pub fn reply_of(reading: Result<Option<u32>, CountError>) -> CountReply
    ensures { result ≡ count_reply reading }
{
    match reading {
        Ok(count) => CountReply {
            number: 0,
            hundredths: count.unwrap_or(ABSENT),
        },
        Err(error) => CountReply {
            number: error.number(),
            hundredths: ABSENT,
        },
    }
}

pub fn count_from(hundredths: u32) -> Option<u32>
    ensures { result ≡ count_from hundredths }
{
    (hundredths != ABSENT).then_some(hundredths)
}
