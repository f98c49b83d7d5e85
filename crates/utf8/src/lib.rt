// Characters of UTF-8, by the rows of Table 3-7 of the Unicode Standard. Any bytes and any place
// may be given; a character that does not end within the bytes is not one.
#![tactic(auto)]

ghost use Rattle.std.specs.Prelude.{◌≡◌};
ghost use Rattle.utf8.specs.Table37.{in_range, fits_row, char_len};
ghost use Rattle.utf8.specs.Text.{char_at};

// A row: the lowest and the highest first byte, the lowest and the highest second byte, and how
// many bytes the character has. A character of one byte has 0 for both second bytes.
const ROWS: [[u8; 5]; 9] = [
    [0x00, 0x7F, 0x00, 0x00, 1],
    [0xC2, 0xDF, 0x80, 0xBF, 2],
    [0xE0, 0xE0, 0xA0, 0xBF, 3],
    [0xE1, 0xEC, 0x80, 0xBF, 3],
    [0xED, 0xED, 0x80, 0x9F, 3],
    [0xEE, 0xEF, 0x80, 0xBF, 3],
    [0xF0, 0xF0, 0x90, 0xBF, 4],
    [0xF1, 0xF3, 0x80, 0xBF, 4],
    [0xF4, 0xF4, 0x80, 0x8F, 4],
];

// How many bytes the well-formed character at `at` has; 0 if there is none, and no `Option`: with
// one a look up took four instructions more for each letter of the alphabet, and missed its goal.
pub fn char_len(s: &[u8], at: usize) -> usize
    ensures { result ≡ char_len s.now at }
{
    for row in ROWS {
        if fits(row, s, at) {
            return row[4] as usize;
        }
    }
    0
}

// The same, but the first row is tried before the table: in a loop over characters that mostly
// have one byte, one test is then enough for each of these.
pub fn quick_len(s: &[u8], at: usize) -> usize
    ensures { result ≡ char_len s.now at }
{
    let first = ROWS[0];
    if fits(first, s, at) {
        return first[4] as usize;
    }
    char_len(s, at)
}

// The character of n bytes at `at`, as the number that its bytes make; 0 if there is none.
pub fn char_at(s: &[u8], at: usize, n: usize) -> u32
    requires { n ≡ char_len s.now at }
    ensures { result ≡ char_at s.now at }
{
    if n == 0 {
        return 0;
    }
    field::read_few(s, at, n)
}

// Whether a whole character of this row begins at `at`.
// By index: the number of the byte decides its range, and there are at most four turns.
fn fits(row: [u8; 5], s: &[u8], at: usize) -> bool
    ensures { result ≡ fits_row row s.now at }
{
    let n = row[4] as usize;
    if s.len() < at {
        return false;
    }
    if s.len() - at < n {
        return false;
    }
    for i in 0..n {
        if !in_range(row, i, s[at + i]) {
            return false;
        }
    }
    true
}

// Whether b is in the range for byte i of a character of this row. By `&`: there is no branch
// between the two tests.
fn in_range(row: [u8; 5], i: usize, b: u8) -> bool
    ensures { result ≡ in_range row i b }
{
    if i == 0 {
        return (row[0] <= b) & (b <= row[1]);
    }
    if i == 1 {
        return (row[2] <= b) & (b <= row[3]);
    }
    (0x80 <= b) & (b <= 0xBF)
}
