// 01: "A key in hand is up to 64 letter numbers together with its length." It is made from
// letters or from text, and judged by 9 and 10. A text is read to its end, since a bad character
// after the sixty-fourth letter is still 10.
#![tactic(auto)]

ghost use Rattle.std.specs.Prelude.{◌≡◌, true, List, ℕ, ◌≤◌};
ghost use Rattle.field.specs.Range.{between};
ghost use Rattle.head.specs.Fields.{most_letters, permitted};
ghost use Rattle.alphabet.specs.Letters.{key_of_text};
ghost use Rattle.alphabet.specs.Judged.{letters_in};
ghost use Rattle.paper.specs.Hearing.{first};
ghost use Rattle.paper.specs.Answers.{row_of};
ghost use Rattle.paper.specs.Rows.{all_below, row10};
ghost use Rattle.paper.specs.Orders.{letters_rows, next_rows};
ghost use Rattle.key.specs.Hand.{in_hand, Holds, hand_of, given_of, JudgedBy};

use alphabet::Codes;
use head::Head;
use paper::Refusal;

mod asked;

pub use asked::Asked;

// How many letters a key in hand holds: the greatest max that is permitted.
const HELD: usize = Head::MAX_MOST as usize;

// A key in hand.
#[derive(Clone, Copy)]
pub struct Key {
    // The first letters of the key; those from `len` on are never judged.
    pub letters: [u8; HELD],
    // The length of the key. A key longer than 64 is not held whole, and is refused with 9.
    pub len: usize,
}

// A key as a caller gives it.
#[derive(Clone, Copy)]
pub enum GivenKey<'a> {
    // By its letter numbers, one byte each.
    Letters(&'a [u8]),
    // By its text in UTF-8.
    Text(&'a [u8]),
}

impl Key {
    // The key in hand with these letters.
    pub fn of(letters: &[u8]) -> Key
        ensures { result ≡ in_hand letters.now }
    {
        let len = letters.len();
        let most = len.min(HELD);
        let mut kept = [0u8; HELD];
        kept[..most].copy_from_slice(&letters[..most]);
        Key { letters: kept, len }
    }

    // The key in hand that a text names, if it names one by the letters of an alphabet. It stays a
    // function of its own, so that a key by its letters pays nothing for it.
    #[inline(never)]
    pub fn of_text(text: &[u8], codes: &Codes) -> Option<Key>
        ensures { result ≡ hand_of (key_of_text (letters_in codes.now) text.now) }
    {
        let mut kept = [0u8; HELD];
        let mut len: usize = 0;
        let mut at: usize = 0;
        // Steps of 1 to 4 bytes: an iterator would be a type with laws, longer than the two loops.
        while at < text.len() {
            let size = utf8::quick_len(text, at);
            if size == 0 {
                return None;
            }
            let x = codes.letter(utf8::char_at(text, at, size))?;
            if len < HELD {
                kept[len] = x as u8;
            }
            len += 1;
            at += size;
        }
        Some(Key { letters: kept, len })
    }

    // Judges a key by its letters. Refusals: 9, 10.
    pub fn judge(&self, h: Head) -> Result<(), Refusal>
        requires { permitted h ≡ true }
        ensures { (k : List ℕ) → Holds self.now k → row_of result ≡ first (letters_rows h k) }
    {
        if !length_allowed(self.len, h) {
            return Err(Refusal::KeyLength);
        }
        self.spelled(h)
    }

    // Judges the key given to next key: another order than `judge`, since "For next key, 9 means
    // only a key longer than max." Refusals: 9, 10.
    pub fn judge_next(&self, h: Head) -> Result<(), Refusal>
        requires { permitted h ≡ true }
        ensures { (k : List ℕ) → Holds self.now k → row_of result ≡ first (next_rows h k) }
    {
        if (h.max as usize) < self.len {
            return Err(Refusal::KeyLength);
        }
        self.spelled(h)
    }

    // Judges the letters of a key that is held whole. Refusals: 10.
    fn spelled(&self, h: Head) -> Result<(), Refusal>
        requires { self.now.len ≤ most_letters }
        ensures { (k : List ℕ) → Holds self.now k → row_of result ≡ row10 h k }
    {
        if !all_below(&self.letters[..self.len], h.n) {
            return Err(Refusal::Letter);
        }
        Ok(())
    }
}

impl GivenKey<'_> {
    // The key in hand that is meant, judged by 9 and 10, with any head that is permitted and any
    // letters. Refusals: by letters 9, 10; by text 10, 9. It is compiled into its callers, as
    // `asking::ask` is, so that a key is not moved twice on its way to a store.
    #[inline(always)]
    pub fn judge(self, h: Head, codes: &Codes) -> Result<Key, Refusal>
        requires { permitted h ≡ true }
        ensures { JudgedBy h (letters_in codes.now) (given_of self.entry) result }
    {
        match self {
            GivenKey::Letters(letters) => {
                let key = Key::of(letters);
                key.judge(h)?;
                Ok(key)
            }
            GivenKey::Text(text) => {
                let key = Key::of_text(text, codes).ok_or(Refusal::Letter)?;
                if !length_allowed(key.len, h) {
                    return Err(Refusal::KeyLength);
                }
                Ok(key)
            }
        }
    }
}

// Is the length of a key in min..max? By `&`: there is no branch between the two tests.
fn length_allowed(len: usize, h: Head) -> bool
    ensures { result ≡ between len h.min h.max }
{
    ((h.min as usize) <= len) & (len <= (h.max as usize))
}

// Are these letter numbers all below n?
fn all_below(letters: &[u8], n: u32) -> bool
    ensures { result ≡ all_below n letters.now }
{
    letters.iter().all(|x| u32::from(*x) < n)
}
