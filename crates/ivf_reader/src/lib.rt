// A reader of a recording's records: it keeps the lent file and its place together. The work is done by
// `ivf_file::read_record`, which takes a plain slice and a place.
#![tactic(auto)]

ghost use Rattle.std.specs.Prelude.{◌≡◌};
ghost use Rattle.ivf_file.specs.Record.{record_of};
ghost use Rattle.ivf_reader.specs.Reader.{opened, moved_on};

use ivf_file::{Cut, Record};

#[derive(Clone, Copy)]
pub struct RecordReader<'a> {
    pub file: &'a [u8],
    pub place: usize,
}

impl<'a> RecordReader<'a> {
    // The first record stands behind the file's header.
    pub fn open(file: &'a [u8]) -> RecordReader<'a>
        ensures { result ≡ opened file.entry }
    {
        RecordReader { file, place: 32 }
    }

    // The record at the place, which moves on behind it. At the end, and where a record is cut short, it stays.
    pub fn next_record(&mut self) -> Result<Option<Record>, Cut>
        ensures { (result ≡ record_of self.old.file.now self.old.place) × (self.new ≡ moved_on self.old) }
    {
        let read = ivf_file::read_record(self.file, self.place)?;
        if let Some(record) = read {
            self.place = record.next;
        }
        Ok(read)
    }
}
