// The card printer: reads an image from standard input and prints the card that it is of, or `refused` and a number (document
// 01, "Saved image").
#![tactic(auto)]

ghost use Rattle.std.specs.Prelude.{◌≡◌, ◌≤◌};
ghost use Rattle.std.proofs.Math.ListN;
ghost use Rattle.card_print.specs.Printed.{room};

mod print;

use card::Shape;
use catalogue::Entry;
use catalogue_standings::opening::SHEETS;
use image_soundness::SCRATCH;
use roles::SERVICE;
use std::io;
use std::io::{Read, Stdin, Stdout, Write};

// 91 blocks, and one byte more, by which a longer input is seen.
fn image_space() -> [u8; 46593]
    ensures { 46593 ≡ ListN.length result }
{
    [0; 46593]
}

// The words of the largest map.
fn map_space() -> [u64; 4096]
    ensures { 4096 ≡ ListN.length result }
{
    [0; 4096]
}

// The words of a scratch.
fn scratch_space() -> [u64; SCRATCH]
    ensures { 64 ≡ ListN.length result }
{
    [0; SCRATCH]
}

// Room for the text of the card with the most sheets.
fn text_space() -> [u8; 32768]
    ensures { 32768 ≡ ListN.length result }
{
    [0; 32768]
}

// Prints an image as service, with as many words, entries and words of scratch as it asks for and there are at most. The text
// has room for all that is to be printed: in so many bytes nothing is cut (`prints_whole`, proofs/Whole.antt).
fn print_card(
    out: &mut Stdout,
    image: &[u8],
    map: &mut [u64],
    scratch: &mut [u64],
    text: &mut [u8],
) -> io::Result<()>
    requires { room ≤ ListN.length text.old }
{
    let entries = [Entry {
        mark: 0,
        start: 0,
        length: 0,
    }; SHEETS];
    let words = (image_frames::number(image, 0) as usize).div_ceil(64);
    let w = words.min(map.len());
    let s = w.min(scratch.len());
    let c = SHEETS.min(image_frames::number(image, 2) as usize);
    let none = Shape { blocks: 0, free: 0 };
    let used = print::print_with(
        none,
        SERVICE,
        image,
        &mut map[..w],
        entries,
        c,
        &mut scratch[..s],
        text,
    );
    let end = used.min(text.len());
    out.write_all(&text[..end])
}

// Reads to the end of the input, or until all the bytes are filled, and gives how many were read.
fn read_full(input: &mut Stdin, bytes: &mut [u8]) -> io::Result<usize> {
    let mut at = 0;
    while at < bytes.len() {
        let read = input.read(&mut bytes[at..])?;
        if read == 0 {
            break;
        }
        at += read;
    }
    Ok(at)
}

fn main(rt: HostRuntime) -> io::Result<()> {
    let mut image = image_space();
    let read = read_full(&mut rt.stdin(), &mut image)?;
    let mut map = map_space();
    let mut scratch = scratch_space();
    let mut text = text_space();
    let end = read.min(image.len());
    let mut out = rt.stdout();
    print_card(&mut out, &image[..end], &mut map, &mut scratch, &mut text)
}
