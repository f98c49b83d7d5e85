// Runs cases of the public calls: 01's cases, and those of a cut between two writes (02, Ask 1).
// `stdin` has the cases, a line for each call, and `stdout` what must be written. For each call
// this is the name of the case, the answer's number and place, its length and value or its
// change if the call has them, and every buffer that the call may change.
//
// A line has the call, its numbers, its bytes, a bar and the name of the case, with a blank
// between each two:
//
//     store 6 9 x0100 | store letters, P2 BA = 9
//
//     image BYTES                       these bytes are the image, and all of it is lent
//     put AT BYTES                      these bytes are written into the image
//     lend N                            from here on, N bytes of the image are lent
//     make N A D MIN MAX BYTES          in the lent bytes, with this alphabet
//     look_up LETTERS
//     look_up_text TEXT
//     check WORK                        with WORK working numbers, as in all calls below
//     count WORK
//     mend WORK
//     next_key WORK ROOM LETTERS        at or after the key, with a key buffer of ROOM letters
//     next_key_after WORK ROOM LETTERS  after the key
//     store WORK VALUE LETTERS
//     store_text WORK VALUE TEXT
//     store_writes WORK VALUE LETTERS
//     store_text_writes WORK VALUE TEXT
//
// Numbers are decimal. Bytes, letters and text are written alike: x and two hexadecimal digits
// for each byte, or a text in quotation marks, or both in turn. There may be a `.` between two
// bytes, and `*N` after a byte repeats it so that it is there N times. So `x00*65` is a key of
// 65 letters, `"A"*64"D"` a text, and `x` or an empty text is nothing. The image is kept from
// line to line, as the calls leave it. Before each call the working numbers and the list of
// writes hold 7, and the key buffer AA. A line with nothing before its bar is a remark. Any
// other line is reported, as in `line 17: not a case`, and the next one is run.
//
// For a new call, add a variant to `Call`, an arm to `Call::of`, which says how its line is
// written, and an arm to `run`. No proof changes.
#![tactic(auto)]

mod line;

ghost use Rattle.std.specs.Prelude.{◌≤◌};

use head::Head;
use key::GivenKey;
use line::{Line, cut};
use paper::{Found, Noted, Refusal};
use reading::read_full;
use std::io;

// The longest text that is read.
const TEXT_MOST: usize = 262144;

// The longest image.
const IMAGE_MOST: usize = 1024;

// The most working numbers, and the most letters of a key buffer, that are lent.
const LENT_MOST: usize = 300;

// The longest image that is shown whole after a store or a mending; of a longer one, G and the
// number of changed bytes are shown.
const SHOWN_BYTES: usize = 64;

// If more working numbers than this are lent, only those after them are shown.
const SHOWN_NUMBERS: usize = 252;

fn main(rt: HostRuntime) -> io::Result<()> {
    let mut space = [0u8; TEXT_MOST];
    let len = read_full(&mut rt.stdin(), &mut space)?;
    let mut bench = Bench {
        image: [0; IMAGE_MOST],
        lent: 0,
    };
    for (number, text) in (1u64..).zip(space[..len].split(|b| *b == b'\n')) {
        if !bench.case(&rt, text)? {
            print!(rt; "line {number}: not a case\n")?;
        }
    }
    if len == TEXT_MOST {
        print!(rt; "lines too many\n")?;
    }
    Ok(())
}

// The image, and how many of its bytes are lent.
#[derive(Drop)]
struct Bench {
    image: [u8; IMAGE_MOST],
    lent: usize,
    ghost within: { lent ≤ 1024 },
}

impl Bench {
    // Runs a line. Answers whether it is a case.
    fn case(&mut self, out: &impl Print, text: &[u8]) -> io::Result<bool> {
        let (given, name) = cut(text, b'|');
        let Some(line) = Line::of(given) else {
            return Ok(false);
        };
        if self.edit(&line).is_some() {
            return Ok(true);
        }
        let Some((call, size)) = Call::of(&line) else {
            return Ok(false);
        };
        out.write_all(name.get(1..).unwrap_or(b""))?;
        let mut image = self.image;
        let mut work = [7u32; LENT_MOST];
        run(
            out,
            call,
            &self.image,
            &mut image[..self.lent],
            &mut work[..size.n],
        )?;
        self.image = image;
        print!(out; "\n")?;
        Ok(true)
    }

    // Runs a line that makes no call: a remark, `image`, `put` or `lend`.
    fn edit(&mut self, line: &Line) -> Option<()> {
        match (line.call, line.numbers(), line.bytes()) {
            (b"", [], None) => Some(()),
            (b"image", [], Some(bytes)) => {
                self.put(0, bytes)?;
                self.lend(bytes.len())
            }
            (b"put", [at], Some(bytes)) => self.put(*at as usize, bytes),
            (b"lend", [len], None) => self.lend(*len as usize),
            _ => None,
        }
    }

    // Writes bytes into the image, if there is room.
    fn put(&mut self, at: usize, bytes: &[u8]) -> Option<()> {
        let place = self.image.get_mut(at..)?.get_mut(..bytes.len())?;
        place.copy_from_slice(bytes);
        Some(())
    }

    // Lends so many bytes of the image from here on, if there are as many.
    fn lend(&mut self, len: usize) -> Option<()> {
        if IMAGE_MOST < len {
            return None;
        }
        self.lent = len;
        Some(())
    }
}

// A call, with all that its line gives it except for the working numbers.
#[derive(Clone, Copy)]
enum Call<'a> {
    Make(u32, u32, u32, &'a [u8], u32, u32),
    LookUp(GivenKey<'a>),
    Check,
    Count,
    NextKey(&'a [u8], bool, Size),
    Store(GivenKey<'a>, u64),
    StoreWrites(GivenKey<'a>, u64),
    Mend,
}

impl<'a> Call<'a> {
    // The call of a line and how many working numbers it is lent, if it is a call and there is
    // room for the sizes that its numbers give.
    fn of(line: &'a Line) -> Option<(Call<'a>, Size)> {
        Some(match (line.call, line.numbers(), line.bytes()) {
            (b"make", [n, a, d, min, max], Some(alphabet)) => {
                let (n, a, d) = (narrow(*n)?, narrow(*a)?, narrow(*d)?);
                let (min, max) = (narrow(*min)?, narrow(*max)?);
                (Call::Make(n, a, d, alphabet, min, max), Size::NONE)
            }
            (b"look_up", [], Some(key)) => (Call::LookUp(GivenKey::Letters(key)), Size::NONE),
            (b"look_up_text", [], Some(key)) => (Call::LookUp(GivenKey::Text(key)), Size::NONE),
            (b"check", [n], None) => (Call::Check, Size::of(*n)?),
            (b"count", [n], None) => (Call::Count, Size::of(*n)?),
            (b"next_key", [n, room], Some(key)) => {
                (Call::NextKey(key, false, Size::of(*room)?), Size::of(*n)?)
            }
            (b"next_key_after", [n, room], Some(key)) => {
                (Call::NextKey(key, true, Size::of(*room)?), Size::of(*n)?)
            }
            (b"store", [n, value], Some(key)) => {
                (Call::Store(GivenKey::Letters(key), *value), Size::of(*n)?)
            }
            (b"store_text", [n, value], Some(key)) => {
                (Call::Store(GivenKey::Text(key), *value), Size::of(*n)?)
            }
            (b"store_writes", [n, value], Some(key)) => {
                (
                    Call::StoreWrites(GivenKey::Letters(key), *value),
                    Size::of(*n)?,
                )
            }
            (b"store_text_writes", [n, value], Some(key)) => {
                (
                    Call::StoreWrites(GivenKey::Text(key), *value),
                    Size::of(*n)?,
                )
            }
            (b"mend", [n], None) => (Call::Mend, Size::of(*n)?),
            _ => return None,
        })
    }
}

// A number of `make`, which has 32 bits.
fn narrow(n: u64) -> Option<u32> {
    u32::try_from(n).ok()
}

// How many working numbers, or letters of a key buffer, are lent.
#[derive(Clone, Copy)]
struct Size {
    n: usize,
    ghost small: { n ≤ 300 },
}

impl Size {
    const NONE: Size = Size { n: 0 };

    // As many as a number says, if there is room.
    fn of(n: u64) -> Option<Size> {
        let n = n as usize;
        if n <= LENT_MOST {
            Some(Size { n })
        } else {
            None
        }
    }
}

// Runs a call, and writes what it answers and leaves.
fn run(
    out: &impl Print,
    call: Call,
    before: &[u8],
    image: &mut [u8],
    work: &mut [u32],
) -> io::Result<()> {
    match call {
        Call::Make(n, a, d, alphabet, min, max) => {
            said(out, &images::make(image, n, a, d, alphabet, min, max))?;
            bytes(out, image)
        }
        Call::LookUp(given) => found(out, lookups::look_up(image, given).map(alone)),
        Call::Check => {
            said(out, &checks::check(image, work))?;
            left_work(out, work)
        }
        Call::Count => {
            found(out, checks::count(image, work).map(|n| alone(u64::from(n))))?;
            left_work(out, work)
        }
        Call::NextKey(letters, after, room) => {
            let mut space = [0xAAu8; LENT_MOST];
            let buffer = &mut space[..room.n];
            found(out, checks::next_key(image, work, letters, after, buffer))?;
            left_work(out, work)?;
            bytes(out, buffer)
        }
        Call::Store(given, value) => {
            stored(out, stores::store(image, work, given, value))?;
            left(out, before, image, work)
        }
        Call::StoreWrites(given, value) => {
            let mut list = [7u32; Head::NOTED_MOST as usize];
            let answer = stores::store_writes(image, work, given, value, &mut list);
            noted(out, answer, &list)?;
            left(out, before, image, work)
        }
        Call::Mend => {
            said(out, &images::mend(image, work))?;
            left(out, before, image, work)
        }
    }
}

// Writes the number of an answer and its place, 0 and 0 if the call is done.
fn said<T>(out: &impl Print, answer: &Result<T, Refusal>) -> io::Result<()> {
    let (number, place) = match answer {
        Ok(_) => (0, 0),
        Err(why) => (why.number(), why.place()),
    };
    print!(out; " {number} at {place}:")
}

// The same as `said`, for a call with a length and a value.
fn found(out: &impl Print, answer: Result<Found, Refusal>) -> io::Result<()> {
    said(out, &answer)?;
    if let Ok(Found { length, value }) = answer {
        print!(out; " length {length} value {value}")?;
    }
    Ok(())
}

// The value of a call that answers no length, with the length 0.
fn alone(value: u64) -> Found {
    Found { length: 0, value }
}

// The same as `said`, for a call with a change.
fn stored(out: &impl Print, answer: Result<i32, Refusal>) -> io::Result<()> {
    said(out, &answer)?;
    if let Ok(change) = answer {
        print!(out; " change {change}")?;
    }
    Ok(())
}

// The same as `said`, for a call with a change and a list of writes. Of the list it writes the
// numbers that the call wrote, and two more.
fn noted(out: &impl Print, answer: Result<Noted, Refusal>, list: &[u32]) -> io::Result<()> {
    said(out, &answer)?;
    let mut shown = 2;
    if let Ok(Noted { change, writes }) = answer {
        print!(out; " change {change} writes {writes}")?;
        shown += 2 * writes as usize;
    }
    print!(out; " list")?;
    numbers(out, list.get(..shown).unwrap_or(list))
}

// Writes what a call leaves that may change the image: the image or, if it is too long for a line,
// G and how many bytes changed, and the working numbers.
fn left(out: &impl Print, before: &[u8], image: &[u8], work: &[u32]) -> io::Result<()> {
    if image.len() <= SHOWN_BYTES {
        print!(out; " image")?;
        bytes(out, image)?;
    } else {
        print!(out; " G")?;
        bytes(out, &image[..4])?;
        let changed = before.iter().zip(image).filter(|(a, b)| a != b).count();
        print!(out; " bytes changed {changed}")?;
    }
    left_work(out, work)
}

// Writes the working numbers or, if they are too many for a line, the last of them.
fn left_work(out: &impl Print, work: &[u32]) -> io::Result<()> {
    let many = SHOWN_NUMBERS < work.len();
    print!(out; " work")?;
    numbers(out, if many { &work[SHOWN_NUMBERS..] } else { work })
}

// Writes numbers in decimal.
fn numbers(out: &impl Print, list: &[u32]) -> io::Result<()> {
    for n in list {
        print!(out; " {n}")?;
    }
    Ok(())
}

// Writes bytes in hexadecimal, four by four.
fn bytes(out: &impl Print, list: &[u8]) -> io::Result<()> {
    for four in list.chunks(4) {
        print!(out; " ")?;
        for byte in four {
            print!(out; "{byte:02x}")?;
        }
    }
    Ok(())
}
