// An entry point for bench/: the walk of a listing without its lines, on an image of any length.
// It answers how many keys the walk met.
#![tactic(auto)]

ghost use Rattle.std.specs.Prelude.{◌≡◌};
ghost use Rattle.paper.specs.Calls.{work_after};
ghost use Rattle.measure.specs.KeysMet.{keys_met, checked_keys_met};

use alphabet::Codes;
use head::Head;
use sound::Sound;

// Checks the image, then walks as a listing does, without its lines. Answers how many stored
// keys the walk meets after the empty key, 0 for an image that is refused. The working numbers
// are left as every call that checks leaves them.
#[unsafe(no_mangle)]
pub extern "C" fn measure_walk(image: &[u8], work: &mut [u32]) -> u64
    ensures value { result ≡ checked_keys_met image.now work.old }
    ensures work_after { work.new ≡ work_after image.now work.old }
{
    let mut codes = Codes::none();
    match audit::check(image, work, &mut codes) {
        Ok(h) => count_met(Sound::of(image, h)),
        Err(_) => 0,
    }
}

// Counts the keys of the walk. Each key that is met leaves its path, and the search for the next
// key starts from there.
fn count_met(sound: Sound) -> u64
    ensures { result ≡ keys_met sound.entry.nodes.image.now }
{
    let mut path = [0u8; Head::MAX_MOST as usize];
    let mut addresses = [0u32; Head::PATH_MOST as usize];
    traversal::start(sound.nodes, &mut addresses);
    let mut met: u64 = 0;
    let mut len: usize = 0;
    while let Some(spot) = traversal::onward(sound.nodes, len, &mut path, &mut addresses) {
        met += 1;
        len = spot.length;
    }
    met
}
