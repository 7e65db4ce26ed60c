// Numbers of whole bytes, low byte first.
#![tactic(auto)]

ghost use Rattle.std.specs.Prelude.{◌+◌, ◌≤◌, ◌≡◌, length};
ghost use Rattle.base_little.specs.Little.{little, read_little};

// Why there is no number.
#[derive(Clone, Copy, Debug, PartialEq, Eq)]
pub enum LittleError {
    Short,
    // Over 8 bytes were asked for.
    TooWide,
}

// The n bytes from `at` on, from the last to the first.
fn gather(s: &[u8], at: usize, n: usize) -> u64
    requires { (n ≤ 8) × (at + n ≤ length s.now) }
    ensures { result ≡ little s.now at n }
{
    let mut sum: u64 = 0;
    for k in (0..n).rev() {
        sum = sum * 256 + u64::from(s[at + k]);
    }
    sum
}

// The number of n bytes at a byte place, low byte first.
pub fn read_little(s: &[u8], at: usize, n: usize) -> Result<u64, LittleError>
    ensures { result ≡ read_little s.now at n }
{
    if n > 8 {
        return Err(LittleError::TooWide);
    }
    if n == 0 {
        return Ok(0);
    }
    if at > s.len() || n > s.len() - at {
        return Err(LittleError::Short);
    }
    Ok(gather(s, at, n))
}
