// The frames of a chunk, by its superframe index.
#![tactic(auto)]

ghost use Rattle.std.specs.Prelude.{◌≡◌, ◌+◌, ◌*◌, ◌≤◌, length};
ghost use Rattle.base_little.specs.Little.{little};
ghost use Rattle.chunk_index.specs.Layout.{marker, last_byte, laid, whole};
ghost use Rattle.chunk_index.specs.Split.{refused_split, placed, split_of};

#[derive(Clone, Copy)]
pub enum Answer {
    // So many frames.
    Frames(usize),
    Empty,
    // The chunk is shorter than its index.
    Short,
    // This frame, the first at fault, ends past the room.
    Past(usize),
}

// The frames' places, beside the answer: a refusal has none, but for zeros.
#[derive(Clone, Copy)]
pub struct Split {
    pub answer: Answer,
    pub at: [usize; 8],
    pub size: [usize; 8],
}

fn refusal(answer: Answer) -> Split
    ensures { result ≡ refused_split answer }
{
    Split {
        answer,
        at: [0usize; 8],
        size: [0usize; 8],
    }
}

// The chunk as one frame.
fn one_frame(s: &[u8]) -> Split
    ensures { result ≡ placed (whole s.now) }
{
    let mut size = [0usize; 8];
    size[0] = s.len();
    Split {
        answer: Answer::Frames(1),
        at: [0usize; 8],
        size,
    }
}

fn read_size(s: &[u8], at: usize, n: usize) -> usize
    requires { (n ≤ 4) × (at + n ≤ length s.now) }
    ensures { result ≡ little s.now at n }
{
    base_little::read_little(s, at, n).unwrap() as usize
}

// `count` frames end to end, whose sizes have n bytes each, from `first` on.
fn place_frames(s: &[u8], room: usize, count: usize, first: usize, n: usize) -> Split
    requires { (n ≤ 4) × (count ≤ 8) × (first + count * n ≤ length s.now) }
    ensures { result ≡ placed (laid s.now room count first n) }
{
    let mut ats = [0usize; 8];
    let mut sizes = [0usize; 8];
    let mut at: usize = 0;
    for i in 0..count {
        let z = read_size(s, first + i * n, n);
        // What is left of the room is compared, since the frame's end may pass 64 bits.
        if z <= room - at {
            ats[i] = at;
            sizes[i] = z;
            at += z;
        } else {
            return refusal(Answer::Past(i));
        }
    }
    Split {
        answer: Answer::Frames(count),
        at: ats,
        size: sizes,
    }
}

fn as_size(x: u8) -> usize
    ensures { result ≡ x }
{
    x as usize
}

// The chunk whose last byte announces an index.
fn split_by_index(s: &[u8], last: u8) -> Split
    requires { (last ≡ last_byte s.now) × (marker last ≡ 6) }
    ensures { result ≡ split_of s.now }
{
    let n = as_size(last / 8 % 4 + 1);
    let count = as_size(last % 8 + 1);
    let index = 2 + count * n;
    if s.len() < index {
        return refusal(Answer::Short);
    }
    let room = s.len() - index;
    if s[room] == last {
        place_frames(s, room, count, room + 1, n)
    } else {
        one_frame(s)
    }
}

// The places of the chunk's frames, or why it has none.
pub fn split_chunk(s: &[u8]) -> Split
    ensures { result ≡ split_of s.now }
{
    if s.len() == 0 {
        return refusal(Answer::Empty);
    }
    let last = s[s.len() - 1];
    if last / 32 == 6 {
        split_by_index(s, last)
    } else {
        one_frame(s)
    }
}
