// Text by forms. A form is a text in which marks stand for values, which come in a row: # for a number, % for one that
// is lifted (text_signed), ? for a flag, and <a|b|c> for one of some words, by its number from 0.
#![tactic(auto)]

ghost use Rattle.std.specs.Prelude.{◌+◌, ◌<◌, ◌≡◌, [], ◌∷◌, get_or};
ghost use Rattle.base_bytes.specs.Put.{Written};
ghost use Rattle.text_form.specs.Form.{flag_text, mark_piece, word_piece, piece, words_after, mode_after, is_mark, takes_value, value_after, formed};

// Where in a form it goes on.
#[derive(Clone, Copy)]
enum Mode {
    // In its text.
    Text,
    // Among some words, so many words before the one that is put; in that one with 0.
    Words(u64),
    // Behind that one.
    Rest,
}

fn put_flag(out: &mut [u8], at: usize, n: u64) -> usize
    ensures { Written out.old at (flag_text n) result out.new }
{
    if n == 1 {
        base_bytes::put(out, at, b"true")
    } else {
        base_bytes::put(out, at, b"false")
    }
}

// A byte of the form's text, or the value n for a mark.
fn put_mark(out: &mut [u8], at: usize, c: u8, n: u64) -> usize
    ensures { Written out.old at (mark_piece c n) result out.new }
{
    match c {
        b'#' => text_numeral::put_number(out, at, n),
        b'%' => text_signed::put_lowered(out, at, n),
        b'?' => put_flag(out, at, n),
        b'<' => at,
        _ => base_bytes::put_byte(out, at, c),
    }
}

// A byte of the word that is put.
fn put_word(out: &mut [u8], at: usize, left: u64, c: u8) -> usize
    ensures { Written out.old at (word_piece left c) result out.new }
{
    if left > 0 {
        return at;
    }
    match c {
        b'|' | b'>' => at,
        _ => base_bytes::put_byte(out, at, c),
    }
}

fn put_piece(out: &mut [u8], at: usize, mode: Mode, c: u8, n: u64) -> usize
    ensures { Written out.old at (piece mode c n) result out.new }
{
    match mode {
        Mode::Text => put_mark(out, at, c, n),
        Mode::Words(left) => put_word(out, at, left, c),
        Mode::Rest => at,
    }
}

// Behind a byte among some words.
fn words_after(left: u64, c: u8) -> Mode
    ensures { result ≡ words_after left c }
{
    if c == b'>' {
        return Mode::Text;
    }
    if c != b'|' {
        return Mode::Words(left);
    }
    if left == 0 {
        Mode::Rest
    } else {
        Mode::Words(left - 1)
    }
}

// Behind a byte of the form, where the next value is n.
fn mode_after(mode: Mode, c: u8, n: u64) -> Mode
    ensures { result ≡ mode_after mode c n }
{
    match mode {
        Mode::Text => {
            if c == b'<' {
                Mode::Words(n)
            } else {
                Mode::Text
            }
        }
        Mode::Words(left) => words_after(left, c),
        Mode::Rest => { if c == b'>' { Mode::Text } else { Mode::Rest } }
    }
}

fn is_mark(c: u8) -> bool
    ensures { result ≡ is_mark c }
{
    matches!(c, b'#' | b'%' | b'?' | b'<')
}

// Whether a value goes with a byte.
fn takes_value(mode: Mode, c: u8) -> bool
    ensures { result ≡ takes_value mode c }
{
    match mode {
        Mode::Text => is_mark(c),
        Mode::Words(_) => false,
        Mode::Rest => false,
    }
}

// The number of the next value.
fn value_after(i: usize, mode: Mode, c: u8) -> usize
    requires { i < 18446744073709551615 }
    ensures { result ≡ value_after i mode c }
{
    if takes_value(mode, c) { i + 1 } else { i }
}

// The i-th value, or 0 where there are fewer.
fn value_at(values: &[u32], i: usize) -> u64
    ensures { result ≡ get_or values.now i 0 }
{
    u64::from(values.get(i).copied().unwrap_or(0))
}

// The form with these values.
pub fn put_form(out: &mut [u8], at: usize, form: &[u8], values: &[u32]) -> usize
    ensures { Written out.old at (formed form.now values.now) result out.new }
{
    let mut next = at;
    let mut value = 0;
    let mut mode = Mode::Text;
    for &c in form {
        let n = value_at(values, value);
        next = put_piece(out, next, mode, c, n);
        value = value_after(value, mode, c);
        mode = mode_after(mode, c, n);
    }
    next
}
