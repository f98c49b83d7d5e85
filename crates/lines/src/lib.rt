// The lines of 01's listing program, written into lent bytes. Each function writes its text from
// `at` on and answers where it ends. The caller shows that there is room. The bytes and the place
// are no struct: the program that lends the bytes hands them on, and begins anew in them.
#![tactic(auto)]

ghost use Rattle.std.specs.Prelude.{◌≡◌, ◌+◌, ◌*◌, ◌≤◌, length};
ghost use Rattle.lines.specs.Lines.{TextAt, decimal, entries_line, entry_line, refused_line};
ghost use Rattle.lines.specs.Lines.{key_text, entry_room, entries_room, refused_room};

// The room for the line of a refusal.
pub const REFUSED_ROOM: usize = 64;

// The room for each letter of a stored key: three digits and a dot.
pub const LETTER_ROOM: usize = 4;

// The room for the rest of its line: the value, a blank and the line's end.
pub const VALUE_ROOM: usize = 32;

// Writes the line `entries N`: the number of stored keys.
pub fn entries(out: &mut [u8], at: usize, n: u32) -> usize
    requires { at + entries_room ≤ length out.old }
    ensures { TextAt out.old at (entries_line n) result out.new }
{
    let mut end = word(out, at, b"entries ");
    end = number(out, end, n as u64);
    word(out, end, b"\n")
}

// Writes the line `refused N at P`: a refusal's number and place.
pub fn refused(out: &mut [u8], at: usize, n: u32, place: u32) -> usize
    requires { at + refused_room ≤ length out.old }
    ensures { TextAt out.old at (refused_line n place) result out.new }
{
    let mut end = word(out, at, b"refused ");
    end = number(out, end, n as u64);
    end = word(out, end, b" at ");
    end = number(out, end, place as u64);
    word(out, end, b"\n")
}

// Writes the line of a stored key, by its letters, and its value.
pub fn entry(out: &mut [u8], at: usize, key: &[u8], value: u64) -> usize
    requires { at + entry_room (length key.now) ≤ length out.old }
    ensures text_at { TextAt out.old at (entry_line key.now value) result out.new }
    ensures upper_bound { result ≤ at + entry_room (length key.now) }
{
    let mut end = letters(out, at, key);
    out[end] = b' ';
    end = number(out, end + 1, value);
    out[end] = b'\n';
    end + 1
}

// Writes letter numbers joined by dots; the empty key is a dash.
fn letters(out: &mut [u8], at: usize, key: &[u8]) -> usize
    requires { at + (length key.now * 4 + 1) ≤ length out.old }
    ensures { TextAt out.old at (key_text key.now) result out.new }
{
    if key.is_empty() {
        out[at] = b'-';
        return at + 1;
    }
    let mut end = letter(out, at, key[0]);
    for x in &key[1..] {
        out[end] = b'.';
        end = letter(out, end + 1, *x);
    }
    end
}

// Writes a letter number in decimal. By hand: it has at most three digits, and a letter has room
// for three bytes and no more. There is no loop, since most of the output is letters.
fn letter(out: &mut [u8], at: usize, x: u8) -> usize
    requires { at + 3 ≤ length out.old }
    ensures { TextAt out.old at (decimal x) result out.new }
{
    if x < 10 {
        out[at] = b'0' + x;
        return at + 1;
    }
    if x < 100 {
        out[at] = b'0' + x / 10;
        out[at + 1] = b'0' + x % 10;
        return at + 2;
    }
    out[at] = b'0' + x / 100;
    out[at + 1] = b'0' + x / 10 % 10;
    out[at + 2] = b'0' + x % 10;
    at + 3
}

// Writes a number in decimal, from its last digit on. By hand: the kit has a crate for it, and
// what is proved here is to rest on the standard library alone.
fn number(out: &mut [u8], at: usize, v: u64) -> usize
    requires { at + 20 ≤ length out.old }
    ensures { TextAt out.old at (decimal v) result out.new }
{
    let width = places(v);
    let mut x = v;
    for i in (0..width).rev() {
        out[at + i] = b'0' + ((x % 10) as u8);
        x /= 10;
    }
    at + width
}

// How many digits a number has.
fn places(v: u64) -> usize
    ensures { result ≡ length (decimal v) }
{
    match v.checked_ilog10() {
        Some(power) => power as usize + 1,
        None => 1,
    }
}

// Writes a text as it is.
fn word(out: &mut [u8], at: usize, text: &[u8]) -> usize
    requires { at + length text.now ≤ length out.old }
    ensures { TextAt out.old at text.now result out.new }
{
    field::copy(out, at, text);
    at + text.len()
}
