// IVF files: the header of a file, and the record at a place of it.
#![tactic(auto)]

ghost use Rattle.std.specs.Prelude.{◌≡◌, ◌+◌, ◌^◌, ◌≤◌, ◌<◌, length};
ghost use Rattle.base_little.specs.Little.{little, read_little};
ghost use Rattle.ivf_file.specs.File.{stands_at, file_header_of, file_of};
ghost use Rattle.ivf_file.specs.Record.{record_of};

use base_little::LittleError;

#[derive(Clone, Copy, Debug, PartialEq, Eq)]
pub struct IvfHeader {
    pub width: u16,
    pub height: u16,
    pub rate: u32,
    pub scale: u32,
    pub count: u32,
}

// The file's first bytes are no header of an IVF file with VP9 in it: docs/RULES.md's 7.
#[derive(Clone, Copy, Debug, PartialEq, Eq)]
pub struct NotIvf;

// The number of n bytes that are there.
fn number_at(s: &[u8], at: usize, n: usize) -> u64
    requires { (n ≤ 8) × (at + n ≤ length s.now) }
    ensures { (result ≡ little s.now at n) × (result < 256 ^ n) }
{
    base_little::read_little(s, at, n).unwrap()
}

// The four bytes from `at` on are those of the string.
fn four_stand(s: &[u8], at: usize, four: &[u8; 4]) -> bool
    requires { (at + 4 ≤ length s.now) × (length four.now ≡ 4) }
    ensures { result ≡ stands_at s.now at four.now }
{
    &s[at..at + 4] == four.as_slice()
}

fn header_fields(file: &[u8]) -> IvfHeader
    requires { 32 ≤ length file.now }
    ensures { result ≡ file_header_of file.now }
{
    IvfHeader {
        width: number_at(file, 12, 2) as u16,
        height: number_at(file, 14, 2) as u16,
        rate: number_at(file, 16, 4) as u32,
        scale: number_at(file, 20, 4) as u32,
        count: number_at(file, 24, 4) as u32,
    }
}

// The header of a file. Its version isn't checked.
pub fn parse_ivf_header(file: &[u8]) -> Result<IvfHeader, NotIvf>
    ensures { result ≡ file_of file.now }
{
    if file.len() < 32 {
        return Err(NotIvf);
    }
    if !four_stand(file, 0, b"DKIF") {
        return Err(NotIvf);
    }
    if number_at(file, 6, 2) != 32 {
        return Err(NotIvf);
    }
    if !four_stand(file, 8, b"VP90") {
        return Err(NotIvf);
    }
    Ok(header_fields(file))
}

#[derive(Clone, Copy, Debug, PartialEq, Eq)]
pub struct Record {
    // How many bytes of data there are.
    pub length: u32,
    pub time: u64,
    // Where the data starts.
    pub data: usize,
    // The place after it.
    pub next: usize,
}

// The record's header or data is cut short: docs/RULES.md's 8.
#[derive(Clone, Copy, Debug, PartialEq, Eq)]
pub struct Cut;

// The record at a place of a file, or none where the file ends there, with its header or a record.
pub fn read_record(file: &[u8], place: usize) -> Result<Option<Record>, Cut>
    ensures { result ≡ record_of file.now place }
{
    if place == file.len() {
        return Ok(None);
    }
    if place > file.len() {
        return Err(Cut);
    }
    // What is left is compared, since the record's end may pass 64 bits.
    let left = file.len() - place;
    if left < 12 {
        return Err(Cut);
    }
    let length = number_at(file, place, 4);
    let bytes = length as usize;
    if left - 12 < bytes {
        return Err(Cut);
    }
    Ok(Some(Record {
        length: length as u32,
        time: number_at(file, place + 4, 8),
        data: place + 12,
        next: place + 12 + bytes,
    }))
}

// The length of the data of a record whose first bytes these are.
pub fn record_length(header: &[u8]) -> Result<u64, LittleError>
    ensures { result ≡ read_little header.now 0 4 }
{
    base_little::read_little(header, 0, 4)
}
