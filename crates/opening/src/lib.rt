// 01, "What the bench may hear", 1 to 4: an image is opened by judging them, and the answer is its
// head; the letters of its alphabet are left in the codes that are lent. No public function has a
// `requires`.
#![tactic(auto)]

ghost use Rattle.std.specs.Prelude.{◌≡◌, ◌+◌, min};
ghost use Rattle.head.specs.Fields.{fields_len};
ghost use Rattle.opening.specs.Opened.{OpensWith, Opens};

use alphabet::Codes;
use head::Head;
use paper::Refusal;

// Opens an image, and answers its head. Refusals: 1, 2, 3, 4. After a refusal the contract does
// not say what the codes hold.
pub fn open(image: &[u8], codes: &mut Codes) -> Result<Head, Refusal>
    ensures { Opens image.now result codes.new }
{
    let len = image.len();
    if !head::length_allowed(len) {
        return Err(Refusal::ImageLength);
    }
    let h = Head::read(image);
    let end = alphabet_end(h, len);
    judge(h, &image[Head::FIELDS_LEN..end], len, codes)?;
    Ok(h)
}

// Judges a head, its alphabet and the length of the image. Refusals: 1, 2, 3, 4.
pub fn judge(h: Head, alphabet: &[u8], len: usize, codes: &mut Codes) -> Result<(), Refusal>
    ensures { OpensWith h alphabet.now len result codes.new }
{
    if !head::length_allowed(len) {
        return Err(Refusal::ImageLength);
    }
    if !h.permitted() {
        return Err(Refusal::HeadField);
    }
    let f = h.f as usize;
    if (f == 0) | (alphabet.len() != f) {
        codes.count = 0;
    } else if !codes.judge(alphabet, h.n as usize) {
        return Err(Refusal::Alphabet);
    }
    if !h.fits(len) {
        return Err(Refusal::ImageRoom);
    }
    Ok(())
}

// Where the alphabet ends in an image of this length: after its F bytes, or at the end of the
// image if that comes first.
fn alphabet_end(h: Head, len: usize) -> usize
    ensures { result ≡ min (fields_len + h.f) len }
{
    len.min(Head::FIELDS_LEN + (h.f as usize))
}
