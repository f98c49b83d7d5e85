// An alphabet: N different characters, judged and decoded in one pass, and the letter number of
// a character. If the characters ascend, the pass takes linear time: a character above all
// before it is new, and only another one is searched for.
#![tactic(auto)]

ghost use Rattle.std.specs.Prelude.{◌≡◌, ◌≤◌, false, length, take};
ghost use Rattle.alphabet.specs.Letters.{among};
ghost use Rattle.alphabet.specs.Judged.{letter_in};

mod codes;

pub use codes::Codes;

// The letter number of a character, if it is one of the letters that have these codes.
pub fn letter(codes: &[u32], code: u32) -> Option<usize>
    ensures { result ≡ letter_in codes.now code }
{
    for i in near(codes, code)..codes.len() {
        if codes[i] == code {
            return Some(i);
        }
    }
    None
}

// A place such that the code is not among the codes before it. It compares four codes in each
// turn: by `position` a text look up over 200 letters missed its goal.
fn near(codes: &[u32], code: u32) -> usize
    ensures within { result ≤ length codes.now }
    ensures before { among code (take result codes.now) ≡ false }
{
    let mut i: usize = 0;
    while i + 4 <= codes.len() {
        if (codes[i] == code)
            | (codes[i + 1] == code)
            | (codes[i + 2] == code)
            | (codes[i + 3] == code)
        {
            return i;
        }
        i += 4;
    }
    i
}
