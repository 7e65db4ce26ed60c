// The next record of an IVF file, of which a part is at hand.
#![tactic(auto)]

ghost use Rattle.std.specs.Prelude.{◌≤◌, ◌≡◌, length};
ghost use Rattle.base_little.specs.Little.{little};
ghost use Rattle.ivf_arriving.specs.Next.{empty_by, short_by, next_record};

// No record with more data is listed.
pub const MAX_DATA: u64 = 65536;

#[derive(Clone, Copy)]
pub enum Next {
    // The file ends here.
    End,
    // Not enough of the file is at hand.
    More,
    // The file ends inside the record.
    Cut,
    // So much data, which is at hand.
    Data(usize),
    // Over `MAX_DATA` bytes of data, at hand or not.
    Long(u64),
}

fn empty(ended: bool) -> Next
    ensures { result ≡ empty_by ended }
{
    if ended { Next::End } else { Next::More }
}

fn short(ended: bool) -> Next
    ensures { result ≡ short_by ended }
{
    if ended { Next::Cut } else { Next::More }
}

// The first four bytes of a record's header.
fn data_size(s: &[u8]) -> u64
    requires { 4 ≤ length s.now }
    ensures { result ≡ little s.now 0 4 }
{
    ivf_file::record_length(s).unwrap()
}

// What stands at the start of s, which the file goes on after unless it has ended.
pub fn next_record(s: &[u8], ended: bool) -> Next
    ensures { result ≡ next_record s.now ended }
{
    if s.len() == 0 {
        return empty(ended);
    }
    if s.len() < 12 {
        return short(ended);
    }
    let n = data_size(s);
    if n > MAX_DATA {
        return Next::Long(n);
    }
    let size = n as usize;
    if s.len() - 12 < size {
        return short(ended);
    }
    Next::Data(size)
}
