// The letters of an alphabet as numbers, in room that a caller lends.

ghost use Rattle.std.specs.Prelude.{◌≡◌, ◌≤◌};
ghost use Rattle.head.specs.Fields.{most_links};
ghost use Rattle.alphabet.specs.Letters.{among};

use head::Head;

// The codes of an alphabet's letters.
#[derive(Clone, Copy)]
pub struct Codes {
    // Room for the codes: those of the letters come first, in order.
    pub list: [u32; Head::N_MOST as usize],
    // How many letters there are, 0 where the image has no alphabet.
    pub count: usize,
    pub ghost few: { count ≤ most_links },
}

impl Codes {
    ghost use Rattle.std.specs.Prelude.{[]};
    ghost use Rattle.alphabet.specs.Judged.{Judged, letters_in, letter_in};

    // No letters.
    pub fn none() -> Codes
        ensures { letters_in result ≡ [] }
    {
        Codes {
            list: [0; Head::N_MOST as usize],
            count: 0,
        }
    }

    // Whether these bytes are exactly n well-formed characters, all different. If they are, the
    // codes are the characters in order; otherwise the contract does not say what they are.
    pub fn judge(&mut self, bytes: &[u8], n: usize) -> bool
        requires { n ≤ most_links }
        ensures { Judged n bytes.now result self.new }
    {
        let mut count: usize = 0;
        let mut top: u32 = 0;
        let mut at: usize = 0;
        // Steps of 1 to 4 bytes: an iterator would be a type with laws, longer than the two loops.
        while at < bytes.len() {
            let len = utf8::char_len(bytes, at);
            if len == 0 {
                return false;
            }
            if n <= count {
                return false;
            }
            let code = utf8::char_at(bytes, at, len);
            if code <= top {
                if is_among(&self.list[..count], code) {
                    return false;
                }
            } else {
                top = code;
            }
            self.list[count] = code;
            count += 1;
            at += len;
        }
        self.count = count;
        count == n
    }

    // The letter number of a character, if it is one of the letters.
    pub fn letter(&self, code: u32) -> Option<usize>
        ensures { result ≡ letter_in (letters_in self.now) code }
    {
        crate::letter(&self.list[..self.count], code)
    }
}

// Whether the code is among these. The loop has no early exit, so that the compiler can compare
// several codes at once.
fn is_among(codes: &[u32], code: u32) -> bool
    ensures { result ≡ among code codes.now }
{
    let mut hit = false;
    for c in codes {
        hit |= *c == code;
    }
    hit
}
