// What make writes: "head, alphabet and a zero root", one after the other. The caller has judged
// 1 to 4, so all three are inside the image.
#![tactic(auto)]

ghost use Rattle.std.specs.Prelude.{◌≡◌, true, ◌≤◌, length};
ghost use Rattle.head.specs.Fields.{permitted, used_len};
ghost use Rattle.paper.specs.Calls.{fresh_image};

use head::Head;

// Writes the fresh image of a head whose G is 0. Bytes from U on keep what they held.
pub fn fresh(image: &mut [u8], h: Head, alphabet: &[u8])
    requires h_value { permitted h ≡ true }
    requires g_value { h.g ≡ 0 }
    requires f_value { h.f ≡ length alphabet.now }
    requires h_in_bounds { used_len h ≤ length image.old }
    ensures { image.new ≡ fresh_image h alphabet.now
        image.old }
{
    h.write(image);
    field::copy(image, Head::FIELDS_LEN, alphabet);
    let width = h.node_width() as usize;
    field::clear(image, Head::FIELDS_LEN + alphabet.len(), width);
}
