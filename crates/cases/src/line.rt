// A line that is read byte by byte: a `Line` is what has been read so far, and `step` takes the
// next byte. main.rt says how a line is written.

// The most numbers of a call.
const NUMBERS: usize = 5;

// The most bytes that a line gives.
const BYTES: usize = 2048;

// A line: its call, its numbers and its bytes.
#[derive(Drop)]
pub struct Line<'a> {
    // The call.
    pub call: &'a [u8],
    numbers: [u64; NUMBERS],
    // How many numbers are read.
    count: usize,
    bytes: [u8; BYTES],
    // How many bytes are read, if bytes are given.
    len: Option<usize>,
}

// What is being read.
#[derive(Clone, Copy)]
enum Mode {
    // The blanks before a number or the bytes.
    Gap,
    // A number; its digits so far give this one.
    Number(u64),
    // Bytes.
    Bytes,
    // The second digit of a byte; this is the first.
    Half(u8),
    // A text in quotation marks.
    Quoted,
    // The number after a `*`; its digits so far give this one.
    Times(u64),
    // The blanks after the bytes.
    End,
}

impl<'a> Line<'a> {
    // Reads a line, if it is written as that of a case.
    pub fn of(text: &'a [u8]) -> Option<Line<'a>> {
        let (call, rest) = cut(text, b' ');
        let mut line = Line {
            call,
            numbers: [0; NUMBERS],
            count: 0,
            bytes: [0; BYTES],
            len: None,
        };
        let mut mode = Mode::Gap;
        for b in rest {
            mode = line.step(mode, *b)?;
        }
        match line.step(mode, b' ')? {
            Mode::Gap | Mode::End => Some(line),
            _ => None,
        }
    }

    // The numbers, in order.
    pub fn numbers(&self) -> &[u64] {
        self.numbers.get(..self.count).unwrap_or(&[])
    }

    // The bytes, if bytes are given.
    pub fn bytes(&self) -> Option<&[u8]> {
        self.bytes.get(..self.len?)
    }

    // Takes the next byte; after the last one, a blank. Answers what is read next.
    fn step(&mut self, mode: Mode, b: u8) -> Option<Mode> {
        match mode {
            Mode::Gap => self.begin(b),
            Mode::Number(n) if b == b' ' => self.number(n),
            Mode::Number(n) => Some(Mode::Number(more(n, b)?)),
            Mode::Bytes => Some(after(b)),
            Mode::Half(first) => self.byte(pair(first, b)?, Mode::Bytes),
            Mode::Quoted if b == b'"' => Some(Mode::Bytes),
            Mode::Quoted => self.byte(b, mode),
            Mode::Times(n) => self.times(n, b),
            Mode::End => (b == b' ').then_some(mode),
        }
    }

    // Another blank, or the first byte of a number or of the bytes.
    fn begin(&mut self, b: u8) -> Option<Mode> {
        match b {
            b' ' => Some(Mode::Gap),
            b'x' => {
                self.len = Some(0);
                Some(Mode::Bytes)
            }
            b'"' => {
                self.len = Some(0);
                Some(Mode::Quoted)
            }
            _ => Some(Mode::Number(more(0, b)?)),
        }
    }

    // One more number.
    fn number(&mut self, n: u64) -> Option<Mode> {
        *self.numbers.get_mut(self.count)? = n;
        self.count += 1;
        Some(Mode::Gap)
    }

    // One more byte, and what is read next.
    fn byte(&mut self, b: u8, next: Mode) -> Option<Mode> {
        let len = self.len?;
        *self.bytes.get_mut(len)? = b;
        self.len = Some(len + 1);
        Some(next)
    }

    // A digit of how often the last byte is there, or what follows it.
    fn times(&mut self, n: u64, b: u8) -> Option<Mode> {
        if b.is_ascii_digit() {
            return Some(Mode::Times(more(n, b)?));
        }
        let last = *self.bytes()?.last()?;
        for _ in 0..n.checked_sub(1)? {
            self.byte(last, Mode::Bytes)?;
        }
        match (n, b) {
            // After `*1.` a digit is one more of the number.
            (1, b'.') => Some(Mode::Times(1)),
            _ => Some(after(b)),
        }
    }
}

// What is read after the byte that follows a whole byte or a text.
fn after(b: u8) -> Mode {
    match b {
        b' ' => Mode::End,
        b'.' => Mode::Bytes,
        b'"' => Mode::Quoted,
        b'*' => Mode::Times(0),
        _ => Mode::Half(b),
    }
}

// The number with one more decimal digit, if 64 bits hold it. Digit by digit: a line may go on in
// another mode after any of them.
fn more(n: u64, b: u8) -> Option<u64> {
    let last = char::from(b).to_digit(10)?;
    n.checked_mul(10)?.checked_add(u64::from(last))
}

// The byte with these two hexadecimal digits.
fn pair(first: u8, second: u8) -> Option<u8> {
    let high = char::from(first).to_digit(16)?;
    let low = char::from(second).to_digit(16)?;
    Some((high * 16 + low) as u8)
}

// What is before the first such byte, or all, and what is after it.
pub fn cut(text: &[u8], at: u8) -> (&[u8], &[u8]) {
    match text.iter().position(|b| *b == at) {
        Some(i) => (&text[..i], &text[i + 1..]),
        None => (text, b""),
    }
}
