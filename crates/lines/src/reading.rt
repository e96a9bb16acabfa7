// Lines of numbers from standard input.
//
// Numbers are hexadecimal; what is no digit stands between them, and '#' begins a comment up to the end of the line. A number ends after
// as many digits as the caller says, at the latest, and after 16: with 2 a line is a row of bytes, with or without spaces. What stands
// behind the last line's end is no line.
ghost use Rattle.std.specs.Prelude.{◌<◌, ◌≤◌, length};

use crate::numbers::front;
use crate::{CHARACTERS, NUMBERS};
use std::io::{Read, Stderr, Stdin};

// Where a line stands: before its first character, among its numbers, in a comment, at its end, or behind the text's end.
#[derive(Clone, Copy, PartialEq, Eq)]
enum Stand {
    First,
    Numbers,
    Comment,
    Whole,
    Over,
}

// A line, and how far the text is read.
#[derive(Clone, Copy)]
pub struct Line {
    // The most digits of a number.
    most: usize,
    // The characters from `next` to `end` are read and belong to later lines.
    next: usize,
    end: usize,
    // The number that is being read: its digits so far, and its value.
    open: usize,
    value: u64,
    stand: Stand,
    // How many numbers it has.
    count: usize,
    // Whether it is no line or its first character is '#'.
    pub remark: bool,
    // How many lines may still come: 0 where the text is over, and else a number that no text uses up. Nothing says that the input ends.
    pub left: u64,
}

// Before the first line of a text whose numbers have at most so many digits.
pub fn begin(most: usize) -> Line {
    Line {
        most,
        next: 0,
        end: 0,
        open: 0,
        value: 0,
        stand: Stand::First,
        count: 0,
        remark: false,
        left: u64::MAX,
    }
}

// The line after another, of which nothing is read.
fn new_line(last: Line) -> Line {
    Line {
        next: last.next,
        end: last.end,
        ..begin(last.most)
    }
}

// The value of a hexadecimal digit.
fn digit(character: u8) -> Option<u64> {
    match character {
        b'0'..=b'9' => Some((character - b'0') as u64),
        b'A'..=b'F' => Some((character - b'A') as u64 + 10),
        b'a'..=b'f' => Some((character - b'a') as u64 + 10),
        _ => None,
    }
}

// The end of a number. One for which there is no room is dropped.
fn put_number(line: Line, numbers: &mut [u64; NUMBERS]) -> Line {
    let mut longer = line;
    let count = line.count;
    longer.open = 0;
    longer.value = 0;
    if count < NUMBERS {
        numbers[count] = line.value;
        longer.count = count + 1;
    }
    longer
}

// The end of a number, if one is being read.
fn end_number(line: Line, numbers: &mut [u64; NUMBERS]) -> Line {
    if line.open > 0 {
        return put_number(line, numbers);
    }
    line
}

// The end of the line.
fn end_line(line: Line, numbers: &mut [u64; NUMBERS]) -> Line {
    Line {
        stand: Stand::Whole,
        ..end_number(line, numbers)
    }
}

// A '#': the rest of the line is comment, all of it if this is the first character.
fn begin_comment(line: Line, numbers: &mut [u64; NUMBERS]) -> Line {
    Line {
        stand: Stand::Comment,
        remark: line.stand == Stand::First,
        ..end_number(line, numbers)
    }
}

// A digit more, in a number of at most so many digits, and of 16 if that is less.
fn take_digit(line: Line, numbers: &mut [u64; NUMBERS], value: u64) -> Line {
    let mut longer = line;
    longer.value = line.value % 1152921504606846976 * 16 + value % 16;
    if line.open >= 15 || line.open + 1 >= line.most {
        return put_number(longer, numbers);
    }
    longer.open = line.open + 1;
    longer
}

// A character that is neither the line's end nor in or before a comment.
fn take_symbol(line: Line, numbers: &mut [u64; NUMBERS], character: u8) -> Line {
    let begun = Line {
        stand: Stand::Numbers,
        ..line
    };
    match digit(character) {
        Some(value) => take_digit(begun, numbers, value),
        None => end_number(begun, numbers),
    }
}

// One character.
fn take_character(line: Line, numbers: &mut [u64; NUMBERS], character: u8) -> Line {
    if character == b'\n' {
        end_line(line, numbers)
    } else if line.stand == Stand::Comment {
        line
    } else if character == b'#' {
        begin_comment(line, numbers)
    } else {
        take_symbol(line, numbers, character)
    }
}

// Reads the next part of the text. Where nothing is left the text is over; so it is after a read that fails, which is said on standard
// error.
fn read_part(
    mut input: Stdin,
    errors: Stderr,
    line: Line,
    characters: &mut [u8; CHARACTERS],
) -> Line {
    let mut longer = line;
    let n = match input.read(characters) {
        Ok(n) => n,
        Err(_) => {
            let _written = errors
                .write_all(b"lines: cannot read standard input\n")
                .is_ok();
            0
        }
    };
    longer.next = 0;
    longer.end = n;
    if n == 0 {
        longer.stand = Stand::Over;
    }
    longer
}

// The next character, or the next part of the text.
fn go_on(
    input: Stdin,
    errors: Stderr,
    line: Line,
    characters: &mut [u8; CHARACTERS],
    numbers: &mut [u64; NUMBERS],
) -> Line {
    let next = line.next;
    if next >= line.end || next >= CHARACTERS {
        return read_part(input, errors, line, characters);
    }
    let mut longer = line;
    longer.next = next + 1;
    take_character(longer, numbers, characters[next])
}

// A line that was read after another: one less may come. Behind the text's end there is no line, and none comes.
fn counted(line: Line, last: Line) -> Line
    requires { 0 < last.left }
    ensures { result.left < last.left }
{
    let mut read = line;
    if line.stand == Stand::Over {
        read.count = 0;
        read.remark = true;
        read.left = 0;
        return read;
    }
    read.left = last.left - 1;
    read
}

// The line after another, with its numbers at the front of `numbers`; those for which there is no room are dropped. The characters are the
// same for all lines of a text. The loop has more turns than any line uses up.
pub fn next_line(
    input: Stdin,
    errors: Stderr,
    last: Line,
    characters: &mut [u8; CHARACTERS],
    numbers: &mut [u64; NUMBERS],
) -> Line
    requires { 0 < last.left }
    ensures { result.left < last.left }
{
    let mut line = new_line(last);
    for _ in 0..u64::MAX {
        if matches!(&line.stand, Stand::Whole | Stand::Over) {
            break;
        }
        line = go_on(input, errors, line, characters, numbers);
    }
    counted(line, last)
}

// The numbers of a line.
pub fn row(line: Line, numbers: &[u64; NUMBERS]) -> &[u64] {
    front(&numbers[..], line.count as u64)
}

// Reads until the room is full, the input ends or a read fails, and answers how many bytes stand at the front of the room.
pub fn read_full(mut input: Stdin, room: &mut [u8]) -> usize
    ensures { result ≤ length room.new }
{
    let mut n = 0;
    while n < room.len() {
        let more = match input.read(&mut room[n..]) {
            Ok(more) => more,
            Err(_) => 0,
        };
        if more == 0 {
            break;
        }
        n += more;
    }
    n
}
