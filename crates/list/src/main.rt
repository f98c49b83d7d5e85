// 01's listing program: reads an image of at most 65,536 bytes from standard input and writes
// its stored keys in order, a line for each, or the one line of a refusal. It checks the image
// once and then walks through it, and it writes many lines at a time. What it hands over to be
// written, put together, is proved to be the whole output. Where no write failed, a writer whose
// bytes are known has got all of it; that standard output is one is assumed. After a failed read
// or write nothing more is written, and the program ends with that error.
#![tactic(auto)]

ghost use Rattle.std.specs.Prelude.{◌≡◌, ◌+◌, ◌≤◌, length, IfSome, IsOk, OnErr, OnOk};
ghost use Rattle.std.specs.Io.KnownBytes.{Appends};
ghost use Rattle.paper.specs.Answers.{said_of};
ghost use Rattle.lines.specs.Lines.{TextAt, refused_line, entry_room};
ghost use Rattle.list.specs.Output.{output_of, listing_text, NextPart, root_line};

use alphabet::Codes;
use head::Head;
use paper::Refusal;
use reading::read_full;
use sound::Sound;
use std::io;
use std::io::{Read, Write};

// The longest image that is read.
const IMAGE: usize = 65536;

// The working numbers, which the check needs one of for each node.
const WORK: usize = 16384;

// The bytes that are written at a time, at most.
const OUT: usize = 65536;

// The last place in these bytes where the longest line fits.
const LAST: usize = OUT - (Head::MAX_MOST as usize) * lines::LETTER_ROOM - lines::VALUE_ROOM;

fn main(rt: HostRuntime) -> io::Result<()> {
    answer(&mut rt.stdin(), &mut rt.stdout())
}

// Writes the whole output for the input that a reader gives. It reads one byte more than an image
// may have, to see whether the input is longer.
fn answer<R: Read, W: Write>(from: &mut R, to: &mut W) -> io::Result<()>
    ensures { OnOk result (IfSome (R.remaining from.old) (λ input.
        Appends (W.contents to.old) (W.contents to.new) (output_of input))) }
{
    let mut space = [0u8; IMAGE + 1];
    let len = read_full(from, &mut space)?;
    let mut done: usize = 0;
    tell(to, &space[..len], &mut done)
}

// Hands over the whole output for an input. `done` counts the bytes that were handed over: at the
// start none, at the end all. Writer, input and count are no struct: it would hold the writer by
// `&mut`, and what the writer has got would be said of a field of a field.
fn tell<W: Write>(to: &mut W, input: &[u8], done: &mut usize) -> io::Result<()>
    requires { done.old ≡ 0 }
    ensures done_value { done.new ≡ length (output_of input.now) }
    ensures written { OnOk result
        (Appends (W.contents to.old) (W.contents to.new) (output_of input.now)) }
{
    if IMAGE < input.len() {
        return refuse(to, input, Refusal::ImageLength, done);
    }
    let mut work = [0u32; WORK];
    let mut codes = Codes::none();
    match audit::check(input, &mut work, &mut codes) {
        Ok(h) => list(to, Sound::of(input, h), done),
        Err(why) => refuse(to, input, why, done),
    }
}

// Hands over the one line of a refusal.
fn refuse<W: Write>(to: &mut W, input: &[u8], why: Refusal, done: &mut usize) -> io::Result<()>
    requires input_value { output_of input.now
        ≡ refused_line (said_of why).number (said_of why).place }
    requires done_value { done.old ≡ 0 }
    ensures done_value { done.new ≡ length (output_of input.now) }
    ensures written { OnOk result
        (Appends (W.contents to.old) (W.contents to.new) (output_of input.now)) }
{
    let mut out = [0u8; lines::REFUSED_ROOM];
    let end = lines::refused(&mut out, 0, why.number(), why.place());
    hand_over(to, Ok(()), input, &out[..end], done)
}

// Hands over the number of stored keys, then a line for each: first the root's own key, if it is
// stored. The lines so far are handed over once the longest line may not fit after them.
fn list<W: Write>(to: &mut W, sound: Sound, done: &mut usize) -> io::Result<()>
    requires input_value { output_of sound.nodes.image.now ≡ listing_text sound.nodes.image.now }
    requires done_value { done.old ≡ 0 }
    ensures done_value { done.new ≡ length (output_of sound.entry.nodes.image.now) }
    ensures written { OnOk result (Appends (W.contents to.old) (W.contents to.new)
        (output_of sound.entry.nodes.image.now)) }
{
    let nodes = sound.nodes;
    let input = nodes.image;
    let mut out = [0u8; OUT];
    let mut path = [0u8; Head::MAX_MOST as usize];
    let mut addresses = [0u32; Head::PATH_MOST as usize];
    let head = lines::entries(&mut out, 0, counting::count(sound));
    let root = traversal::start(nodes, &mut addresses);
    let mut end = root_line(&mut out, head, root);
    let mut len: usize = 0;
    let mut sent = Ok(());
    while let Some(spot) = traversal::onward(nodes, len, &mut path, &mut addresses) {
        if LAST < end {
            sent = hand_over(to, sent, input, &out[..end], done);
            end = 0;
        }
        len = spot.length;
        end = lines::entry(&mut out, end, &path[..len], spot.value);
    }
    hand_over(to, sent, input, &out[..end], done)
}

// Writes the line of the root's own key into the buffer, if it is stored. Answers where the line
// ends. The value 0 is absent, as the format has it.
fn root_line(out: &mut [u8], at: usize, value: u64) -> usize
    requires { at + entry_room 0 ≤ length out.old }
    ensures text_at { TextAt out.old at (root_line value) result out.new }
    ensures upper_bound { result ≤ at + entry_room 0 }
{
    if value == 0 {
        return at;
    }
    lines::entry(out, at, b"", value)
}

// Hands over a piece of the output for an input, to be written, and counts its bytes. It is the
// next part of the output, after the bytes that were counted before. No other function writes, and
// no other changes the count. `sent` is how the writes before went, and the answer how they and
// this one went: after one that failed, no other is begun, and the pieces are counted all the
// same.
fn hand_over<W: Write>(
    to: &mut W,
    sent: io::Result<()>,
    input: &[u8],
    piece: &[u8],
    done: &mut usize,
) -> io::Result<()>
    requires { NextPart (output_of input.now) done.old piece.now }
    ensures done_value { done.new ≡ done.old + length piece.now }
    ensures written { OnOk result
        (IsOk sent × Appends (W.contents to.old) (W.contents to.new) piece.now) }
    ensures failed { OnErr sent ((result ≡ sent) × (to.new ≡ to.old)) }
{
    *done += piece.len();
    sent?;
    to.write_all(piece)
}
