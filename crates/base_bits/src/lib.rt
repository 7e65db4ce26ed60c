// Reads a field of at most 31 bits, high bit first, at any bit of a slice; and the answers that every reader above
// shares.
#![tactic(auto)]

ghost use Rattle.std.specs.Prelude.{◌+◌, ◌*◌, ◌≤◌, ◌≡◌, length};
ghost use Rattle.base_bits.specs.Bit.{number};
ghost use Rattle.base_bits.specs.Read.{read_bits, read_bits_if};
ghost use Rattle.base_bits.specs.Refusal.{refusal_number};
ghost use Rattle.base_bits.specs.declared.Refusal.TheVariants.{PastEnd};

// A place in a slice: the number of bits before it.
#[derive(Clone, Copy)]
pub struct Cursor {
    pub at: usize,
}

impl Cursor {
    // The widest field that is read at once, as in the Rust.
    pub const WIDEST: usize = 31;

    pub fn start() -> Cursor
        ensures { result ≡ record { at = 0 } }
    {
        Cursor { at: 0 }
    }
}

// Why a bit read gives no value.
#[derive(Clone, Copy, Debug, PartialEq, Eq)]
pub enum BitsError {
    // The field has bits past the slice's last byte.
    Short,
    // Over 31 bits were asked for, and nothing was read.
    TooWide,
}

// A field's number and the place past it.
pub type Bits = Result<(u32, Cursor), BitsError>;

// Why a header is refused.
#[derive(Clone, Copy, Debug, PartialEq, Eq)]
pub enum Refusal {
    FrameMarker,
    SyncCode,
    PastEnd,
}

impl Refusal {
    pub fn number(self) -> u8
        ensures { result ≡ refusal_number self }
    {
        match self {
            Refusal::FrameMarker => 4,
            Refusal::SyncCode => 5,
            Refusal::PastEnd => 6,
        }
    }
}

// No field of a header is too wide, so one that can't be read ends past the frame.
impl From<BitsError> for Refusal {
    ghost from_gives = { λ _ e. e ≡ PastEnd };

    fn from(_error: BitsError) -> Refusal {
        Refusal::PastEnd
    }
}

// What a part of a header is read as: a value and the place past it, or why the header is refused.
pub type Read<T> = Result<(T, Cursor), Refusal>;

// The number that whole bytes spell, so many from byte q on.
fn whole_bytes(s: &[u8], q: usize, count: usize) -> u64
    requires { (count ≤ 5) × (q + count ≤ length s.now) }
    ensures { result ≡ number s.now (8 * q) (8 * count) }
{
    let mut v: u64 = 0;
    for k in 0..count {
        v = v * 256 + s[q + k] as u64;
    }
    v
}

pub fn read_bits(s: &[u8], c: Cursor, n: usize) -> Bits
    ensures { result ≡ read_bits s.now c.at n }
{
    if n > Cursor::WIDEST {
        return Err(BitsError::TooWide);
    }
    if n == 0 {
        return Ok((0, c));
    }
    let at = c.at;
    let q = at / 8;
    if q >= s.len() {
        return Err(BitsError::Short);
    }
    // Whole bytes are counted, since the number of bits may pass 64 bits.
    let span = at % 8 + n;
    let count = (span + 7) / 8;
    if count > s.len() - q {
        return Err(BitsError::Short);
    }
    if n > 18446744073709551615 - at {
        return Err(BitsError::Short);
    }
    // The field without the bits behind it, and then without those before it.
    let front = whole_bytes(s, q, count) >> (count * 8 - span);
    let v = front % (1u64 << n);
    Ok((v as u32, Cursor { at: at + n }))
}

// A field that is there only sometimes: 0 where it isn't, and nothing is read.
pub fn read_bits_if(s: &[u8], c: Cursor, there: bool, n: usize) -> Bits
    ensures { result ≡ read_bits_if there s.now c.at n }
{
    if there {
        read_bits(s, c, n)
    } else {
        Ok((0, c))
    }
}
