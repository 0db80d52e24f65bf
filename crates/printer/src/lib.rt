// The text that the card printer prints (document 01, "Saved image"): of a card, line by line, and of a refusal. It is written
// to a lent text; what finds no room there is left out, so that no length has to be asked for.
#![tactic(auto)]

ghost use Rattle.std.specs.Prelude.{[], ◌∷◌, ◌++◌, ◌-◌, length, take};
ghost use Rattle.printer.specs.Decimal.{decimal, numeral};
ghost use Rattle.printer.specs.Lines.{card_line, runs_line, sheet_line};
ghost use Rattle.printer.specs.Text.{sheet_lines, card_text, refusal_text};
ghost use Rattle.printer.specs.Writing.{Writes};

use catalogue::Entry;
use survey::Counts;

const SPACE: u8 = 0x20;

const NEWLINE: u8 = 0x0A;

// Writes a byte.
pub fn write_byte(text: &mut [u8], at: usize, byte: u8) -> usize
    ensures { Writes (byte ∷ []) text.old at result text.new }
{
    if at < text.len() {
        text[at] = byte;
        return at + 1;
    }
    at
}

// Writes bytes.
pub fn write_word(text: &mut [u8], at: usize, word: &[u8]) -> usize
    ensures { Writes word.now text.old at result text.new }
{
    let mut place = at;
    for byte in word {
        place = write_byte(text, place, *byte);
    }
    place
}

// Writes a number in decimal: what is before its last digit is a number too.
pub fn write_number(text: &mut [u8], at: usize, number: usize) -> usize
    ensures { Writes (decimal number) text.old at result text.new }
{
    if number < 10 {
        return write_byte(text, at, 0x30 + number as u8);
    }
    let last = write_number(text, at, number / 10);
    write_byte(text, last, 0x30 + (number % 10) as u8)
}

// Writes a number and the byte behind it.
pub fn write_numeral(text: &mut [u8], at: usize, number: usize, end: u8) -> usize
    ensures { Writes (numeral number end) text.old at result text.new }
{
    let last = write_number(text, at, number);
    write_byte(text, last, end)
}

// Writes the first line: n, free count and c.
pub fn write_card(text: &mut [u8], at: usize, n: u32, free: u32, c: usize) -> usize
    ensures { Writes (card_line n free c) text.old at result text.new }
{
    let at = write_word(text, at, b"card ");
    let at = write_numeral(text, at, n as usize, SPACE);
    let at = write_numeral(text, at, free as usize, SPACE);
    write_numeral(text, at, c, NEWLINE)
}

// Writes the second line: runs and longest run.
pub fn write_runs(text: &mut [u8], at: usize, counts: Counts) -> usize
    ensures { Writes (runs_line counts) text.old at result text.new }
{
    let at = write_word(text, at, b"runs ");
    let at = write_number(text, at, counts.runs as usize);
    let at = write_word(text, at, b" longest ");
    write_numeral(text, at, counts.longest as usize, NEWLINE)
}

// Writes the line of a sheet: number, mark as a letter, start, length.
pub fn write_line(text: &mut [u8], at: usize, sheet: usize, entry: Entry) -> usize
    ensures { Writes (sheet_line sheet entry) text.old at result text.new }
{
    let at = write_numeral(text, at, sheet, SPACE);
    let at = write_byte(text, at, (entry.mark % 256) as u8);
    let at = write_byte(text, at, SPACE);
    let at = write_numeral(text, at, entry.start as usize, SPACE);
    write_numeral(text, at, entry.length as usize, NEWLINE)
}

// Writes the first two lines, and tells where those of the sheets go.
pub fn write_head(text: &mut [u8], n: u32, free: u32, c: usize, counts: Counts) -> usize
    ensures { Writes (card_line n free c ++ runs_line counts) text.old 0 result text.new }
{
    let second = write_card(text, 0, n, free, c);
    write_runs(text, second, counts)
}

// Writes a line for each sheet, the first being number `first`, up to one whose number is not below the text's length. A line
// has a byte at least: from a place at or behind `first` on the text is full by then, and no line is left out that would find
// room (`every_line` in crates/printer/proofs/Lines.antt).
pub fn write_sheets(text: &mut [u8], at: usize, first: usize, catalogue: &[Entry]) -> usize
    ensures { Writes (sheet_lines first (take (length text.old - first) catalogue.now)) text.old at result text.new }
{
    let most = text.len().saturating_sub(first);
    let listed = &catalogue[..catalogue.len().min(most)];
    let mut place = at;
    for (index, entry) in listed.iter().enumerate() {
        place = write_line(text, place, first + index, *entry);
    }
    place
}

// Writes the text of a card, and gives the number of bytes written.
pub fn describe_card(
    n: u32,
    free: u32,
    counts: Counts,
    catalogue: &[Entry],
    text: &mut [u8],
) -> usize
    ensures { Writes (card_text n free counts catalogue.now) text.old 0 result text.new }
{
    let third = write_head(text, n, free, catalogue.len(), counts);
    write_sheets(text, third, 0, catalogue)
}

// Writes the text of a refusal, and gives the number of bytes written. 19 bytes are enough.
pub fn describe_refusal(number: u32, text: &mut [u8]) -> usize
    ensures { Writes (refusal_text number) text.old 0 result text.new }
{
    let at = write_word(text, 0, b"refused ");
    write_numeral(text, at, number as usize, NEWLINE)
}
