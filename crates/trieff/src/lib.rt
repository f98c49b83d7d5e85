// What a bench links: the functions that the static library exports; include/trieff.h declares
// them. Each calls one public call and answers a `TrieffAnswer`; its promise is that call's own.
// C passes a slice as a pointer and a length, the list of writes as a pointer alone.
#![tactic(auto)]

ghost use Rattle.paper.specs.Given.{as_letters, as_text};
ghost use Rattle.paper.specs.Promises.{Makes, Checks, CountsKeys, LooksUp, Stores, StoresWrites};
ghost use Rattle.paper.specs.Promises.{Mends, Nexts};
ghost use Rattle.position.specs.Promises.{WorksOut, ChecksCounts, StoresCounts, GivesKey};
ghost use Rattle.position.specs.Promises.{GivesPosition};
ghost use Rattle.face.specs.Face.{numbers_of};

use face::TrieffAnswer;
use head::Head;
use key::GivenKey;

// Makes a fresh image in the slice: head, alphabet and a zero root. Refusals: 1, 2, 3 for the
// alphabet given, 4.
#[unsafe(no_mangle)]
pub extern "C" fn trieff_make(
    image: &mut [u8],
    n: u32,
    a: u32,
    d: u32,
    alphabet: &[u8],
    min: u32,
    max: u32,
) -> TrieffAnswer
    ensures { Makes image.old n a d alphabet.now min max (numbers_of result)
        image.new }
{
    images::make(image, n, a, d, alphabet, min, max).into()
}

// Checks an image: head, alphabet, links, and where data stands. Refusals: 1 to 8, 16, 19.
#[unsafe(no_mangle)]
pub extern "C" fn trieff_check(image: &[u8], work: &mut [u32]) -> TrieffAnswer
    ensures { Checks image.now work.old (numbers_of result)
        work.new }
{
    checks::check(image, work).into()
}

// The number of stored keys, in `value`. Refusals: 1 to 8, 16, 19.
#[unsafe(no_mangle)]
pub extern "C" fn trieff_count(image: &[u8], work: &mut [u32]) -> TrieffAnswer
    ensures { CountsKeys image.now work.old (numbers_of result)
        work.new }
{
    checks::count(image, work).into()
}

// The value under a key given by its letters, in `value`; 0 for absent. Refusals: 1 to 4, 9, 10,
// 6 for a bad link on the key's path.
#[unsafe(no_mangle)]
pub extern "C" fn trieff_look_up(image: &[u8], letters: &[u8]) -> TrieffAnswer
    ensures { LooksUp image.now (as_letters letters.now)
        (numbers_of result) }
{
    lookups::look_up(image, GivenKey::Letters(letters)).into()
}

// The same for a key given as text. Refusals: 1 to 4, 10, 9, 6.
#[unsafe(no_mangle)]
pub extern "C" fn trieff_look_up_text(image: &[u8], text: &[u8]) -> TrieffAnswer
    ensures { LooksUp image.now (as_text text.now) (numbers_of result) }
{
    lookups::look_up(image, GivenKey::Text(text)).into()
}

// Stores a value under a key given by its letters; 0 deletes the key. `change` is the change in
// the number of stored keys. Refusals: 1 to 8, 16, 19, 9, 10, 11, 12, 13.
#[unsafe(no_mangle)]
pub extern "C" fn trieff_store(
    image: &mut [u8],
    work: &mut [u32],
    letters: &[u8],
    value: u64,
) -> TrieffAnswer
    ensures { Stores image.old work.old
        (as_letters letters.now) value (numbers_of result) image.new
        work.new }
{
    stores::store(image, work, GivenKey::Letters(letters), value).into()
}

// The same for a key given as text. Refusals: 1 to 8, 16, 19, 10, 9, 11, 12, 13.
#[unsafe(no_mangle)]
pub extern "C" fn trieff_store_text(
    image: &mut [u8],
    work: &mut [u32],
    text: &[u8],
    value: u64,
) -> TrieffAnswer
    ensures { Stores image.old work.old (as_text text.now)
        value (numbers_of result) image.new work.new }
{
    stores::store(image, work, GivenKey::Text(text), value).into()
}

// As `trieff_store`, and notes its writes in the lent list. `length` is the number of writes.
// Refusals: 1 to 8, 16, 19, 9, 10, 11, 12, 13.
#[unsafe(no_mangle)]
pub extern "C" fn trieff_store_writes(
    image: &mut [u8],
    work: &mut [u32],
    letters: &[u8],
    value: u64,
    writes: &mut [u32; Head::NOTED_MOST as usize],
) -> TrieffAnswer
    ensures { StoresWrites image.old work.old
        (as_letters letters.now) value writes.old (numbers_of result)
        image.new work.new writes.new }
{
    stores::store_writes(image, work, GivenKey::Letters(letters), value, writes).into()
}

// The same for a key given as text. Refusals: 1 to 8, 16, 19, 10, 9, 11, 12, 13.
#[unsafe(no_mangle)]
pub extern "C" fn trieff_store_text_writes(
    image: &mut [u8],
    work: &mut [u32],
    text: &[u8],
    value: u64,
    writes: &mut [u32; Head::NOTED_MOST as usize],
) -> TrieffAnswer
    ensures { StoresWrites image.old work.old
        (as_text text.now) value writes.old (numbers_of result) image.new
        work.new writes.new }
{
    stores::store_writes(image, work, GivenKey::Text(text), value, writes).into()
}

// Mends an image after a cut: if the check answers 8 at p, and the image with G set to p-1 is
// accepted, G becomes p-1; otherwise nothing changes. Refusals: 1 to 8, 16, 19.
#[unsafe(no_mangle)]
pub extern "C" fn trieff_mend(image: &mut [u8], work: &mut [u32]) -> TrieffAnswer
    ensures { Mends image.old work.old (numbers_of result)
        image.new work.new }
{
    images::mend(image, work).into()
}

// The first stored key at or after the key given or, if `after` is true, after it, in the key
// buffer, `length` and `value`. Refusals: 1 to 8, 16, 19, 9 for a key longer than max, 10, 14, 15.
#[unsafe(no_mangle)]
pub extern "C" fn trieff_next_key(
    image: &[u8],
    work: &mut [u32],
    letters: &[u8],
    after: bool,
    key: &mut [u8],
) -> TrieffAnswer
    ensures { Nexts image.now work.old letters.now after
        key.old (numbers_of result) work.new key.new }
{
    checks::next_key(image, work, letters, after, key).into()
}

// Works the counts out afresh. Refusals: 1 to 8 (5 for either list), 16,
// 19.
#[unsafe(no_mangle)]
pub extern "C" fn trieff_counts(image: &[u8], work: &mut [u32], list: &mut [u32]) -> TrieffAnswer
    ensures { WorksOut image.now work.old list.old
        (numbers_of result) work.new list.new }
{
    counts::counts(image, work, list).into()
}

// Checks an image and compares its counts with fresh ones. Refusals: 1 to 8 (5 for either list),
// 16, 19, 25.
#[unsafe(no_mangle)]
pub extern "C" fn trieff_check_counts(image: &[u8], work: &mut [u32], list: &[u32]) -> TrieffAnswer
    ensures { ChecksCounts image.now work.old list.now
        (numbers_of result) work.new }
{
    counts::check_counts(image, work, list).into()
}

// As `trieff_store`, and keeps the counts right. Refusals: 1 to 8 (5 for either list), 16, 19, 25,
// 9, 10, 11, 12, 13, then 5 again if the list has no number for a new node.
#[unsafe(no_mangle)]
pub extern "C" fn trieff_store_counts(
    image: &mut [u8],
    work: &mut [u32],
    letters: &[u8],
    value: u64,
    list: &mut [u32],
) -> TrieffAnswer
    ensures { StoresCounts image.old work.old
        (as_letters letters.now) value list.old (numbers_of result)
        image.new work.new list.new }
{
    counts::store_counts(image, work, GivenKey::Letters(letters), value, list).into()
}

// The same for a key given as text. Refusals: 1 to 8 (5 for either list), 16, 19, 25, 10, 9, 11,
// 12, 13, then 5 again.
#[unsafe(no_mangle)]
pub extern "C" fn trieff_store_text_counts(
    image: &mut [u8],
    work: &mut [u32],
    text: &[u8],
    value: u64,
    list: &mut [u32],
) -> TrieffAnswer
    ensures { StoresCounts image.old work.old
        (as_text text.now) value list.old (numbers_of result) image.new
        work.new list.new }
{
    counts::store_counts(image, work, GivenKey::Text(text), value, list).into()
}

// The stored key at a position, from 0: its letters in the key buffer, its `length` and its
// `value`. Refusals: 1 to 8 (5 for either list), 16, 19, 25, 14, 15 for a position past the end.
#[unsafe(no_mangle)]
pub extern "C" fn trieff_key_at(
    image: &[u8],
    work: &mut [u32],
    list: &[u32],
    position: u64,
    key: &mut [u8],
) -> TrieffAnswer
    ensures { GivesKey image.now work.old list.now position
        key.old (numbers_of result) work.new key.new }
{
    jumps::key_at(image, work, list, position, key).into()
}

// The position of a stored key given by its letters, in `value`. Refusals: 1 to 8 (5 for either
// list), 16, 19, 25, 9, 10, 15 for a key that is not stored.
#[unsafe(no_mangle)]
pub extern "C" fn trieff_position(
    image: &[u8],
    work: &mut [u32],
    list: &[u32],
    letters: &[u8],
) -> TrieffAnswer
    ensures { GivesPosition image.now work.old list.now
        (as_letters letters.now) (numbers_of result) work.new }
{
    jumps::position(image, work, list, GivenKey::Letters(letters)).into()
}

// The same for a key given as text. Refusals: 1 to 8 (5 for either list), 16, 19, 25, 10, 9, 15.
#[unsafe(no_mangle)]
pub extern "C" fn trieff_position_text(
    image: &[u8],
    work: &mut [u32],
    list: &[u32],
    text: &[u8],
) -> TrieffAnswer
    ensures { GivesPosition image.now work.old list.now
        (as_text text.now) (numbers_of result) work.new }
{
    jumps::position(image, work, list, GivenKey::Text(text)).into()
}
