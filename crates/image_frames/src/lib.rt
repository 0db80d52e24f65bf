// The frames of an image, and the numbers of the body that they carry (document 01, "Saved image").
#![tactic(auto)]

ghost use Rattle.std.specs.Prelude.{◌≡◌, ◌++◌, ◌+◌, ◌-◌, ◌*◌, ◌/◌, ◌%◌, ◌≤◌, min, length, drop, replicate};
ghost use Rattle.block_seals.specs.Sealed.{sealed, blank, payload_of};
ghost use Rattle.blocks_of_card.specs.Card.{block_of, with_block};
ghost use Rattle.image_frames.specs.Frames.{total_of, body_of, framed, sealed_image};
ghost use Rattle.image_frames.specs.Numbers.{place_of, number_in, with_number, word_bytes, word_at, words_at};
ghost use Rattle.block_bytes.specs.Replaced.{replaced};

use block::{BLOCK, PAYLOAD};
use block_bytes::{get4, put4};
use blocks_of_card::{copy_payload, sound_block, write_block};

// Numbers of 4 bytes in the body of an image block.
pub const NUMBERS: usize = 124;

// Where the body starts in its image block.
const BODY_START: usize = 8;

// Where number k of the body stands in the image.
pub fn place(k: usize) -> usize
    requires { place_of k ≤ 18446744073709551615 }
    ensures { result ≡ place_of k }
{
    BLOCK * (k / NUMBERS) + BODY_START + 4 * (k % NUMBERS)
}

// Number k of the body; 0 past its end.
pub fn number(image: &[u8], k: usize) -> u32
    ensures { result ≡ number_in image.now k }
{
    if k / NUMBERS < image.len() / BLOCK {
        return get4(image, place(k));
    }
    0
}

// Stores number k of the body. Past the end nothing changes.
pub fn put_number(image: &mut [u8], k: usize, number: u32)
    ensures { image.new ≡ with_number image.old k number }
{
    if k / NUMBERS < image.len() / BLOCK {
        let start = place(k);
        let end = start + 4;
        put4(&mut image[start..end], number);
    }
}

// Fills the body with zeros from number k on.
pub fn put_zeros(image: &mut [u8], k: usize)
    requires { (length image.old ≤ 46592) × (k ≤ 124 * total_of image.old) }
    ensures { body_of image.new ≡ replaced (body_of image.old) (4 * k)
        (replicate (496 * total_of image.old - 4 * k) 0) }
{
    let end = NUMBERS * (image.len() / BLOCK);
    for i in k..end {
        put_number(image, i, 0);
    }
}

// Whether the body is zeros from number k on.
pub fn zeros_from(image: &[u8], k: usize) -> bool
    requires { length image.now ≤ 46592 }
    ensures { result ≡ blank (drop (4 * k) (body_of image.now)) }
{
    let end = NUMBERS * (image.len() / BLOCK);
    (k..end).all(|i| number(image, i) == 0)
}

// The word that is stored in the numbers k and k + 1.
fn word(image: &[u8], k: usize) -> u64
    requires { k ≤ 32768 }
    ensures { result ≡ number_in image.now k * 4294967296 + number_in image.now (k + 1) }
{
    let high = number(image, k);
    let low = number(image, k + 1);
    (high as u64) * 4294967296 + (low as u64)
}

// The word that stands whole in a frame, from byte `at` of the image on.
// It is `word` without looking for the places of its halves, since most words stand whole.
fn word_here(image: &[u8], at: usize) -> u64
    requires { at + 8 ≤ length image.now }
    ensures { result ≡ word_at image.now at }
{
    let high = get4(image, at);
    let low = get4(image, at + 4);
    (high as u64) * 4294967296 + (low as u64)
}

// Reads words that stand one behind the other in a frame, from byte `at` of the image on.
fn read_together(words: &mut [u64], image: &[u8], at: usize)
    requires { at + 8 * length words.old ≤ length image.now }
    ensures { words.new ≡ words_at image.now at (length words.old) }
{
    for (i, word) in words.iter_mut().enumerate() {
        *word = word_here(image, at + 8 * i);
    }
}

// How many words, but no more than `most`, stand whole in the frame of number k, from there on.
fn words_together(k: usize, most: usize) -> usize
    ensures { result ≡ min ((124 - k % 124) / 2) most }
{
    most.min((NUMBERS - k % NUMBERS) / 2)
}

// Reads the words that stand whole in the frame of number k, from there on, and gives their number.
fn read_frame(words: &mut [u64], image: &[u8], k: usize) -> usize
    requires { k ≤ 32768 }
    ensures { (result ≤ length words.old)
        × (words.new ≡ words_at (body_of image.now) (4 * k) result ++ drop result words.old) }
{
    if image.len() / BLOCK <= k / NUMBERS {
        return 0;
    }
    let count = words_together(k, words.len());
    read_together(&mut words[..count], image, place(k));
    count
}

// Reads the words that are stored from number k on: frame by frame, and the word across two frames apart.
pub fn read_words(words: &mut [u64], image: &[u8], k: usize)
    requires { (k ≤ 16384) × (length words.old ≤ 4096) }
    ensures { words.new ≡ words_at (body_of image.now) (4 * k) (length words.old) }
{
    let mut i: usize = 0;
    while i < words.len() {
        i += read_frame(&mut words[i..], image, k + 2 * i);
        if words.len() <= i {
            return;
        }
        words[i] = word(image, k + 2 * i);
        i += 1;
    }
}

// Stores words from number k on.
pub fn write_words(image: &mut [u8], k: usize, words: &[u64])
    requires { (length image.old ≤ 46592) × (k + 2 * length words.now ≤ 124 * total_of image.old) }
    ensures { body_of image.new ≡ replaced (body_of image.old) (4 * k)
        (word_bytes words.now) }
{
    for (i, &word) in words.iter().enumerate() {
        put_number(image, k + 2 * i, (word / 4294967296) as u32);
        put_number(image, k + 2 * i + 1, (word % 4294967296) as u32);
    }
}

// Whether every frame has its number, the total and its check.
pub fn all_framed(image: &[u8]) -> bool
    requires { length image.now ≤ 46592 }
    ensures { result ≡ framed image.now }
{
    let total = (image.len() / BLOCK) as u32;
    (0..total).all(|i| sound_block(image, i, i, total))
}

// Seals what image block i carries.
fn seal_frame(image: &mut [u8], i: u32, total: u32)
    requires { 512 * i + 512 ≤ length image.old }
    ensures { image.new ≡ with_block image.old i
        (sealed i total (payload_of (block_of image.old i))) }
{
    let mut payload = [0u8; PAYLOAD];
    copy_payload(image, i, &mut payload);
    write_block(image, i, i, total, &payload);
}

// Seals every image block.
pub fn seal_all(image: &mut [u8])
    requires { (length image.old ≤ 46592) × (length image.old ≡ 512 * total_of image.old) }
    ensures { image.new ≡ sealed_image image.old }
{
    let total = (image.len() / BLOCK) as u32;
    for i in 0..total {
        seal_frame(image, i, total);
    }
}
