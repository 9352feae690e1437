//! The line of one group. It is written in place into an array that has room for the longest, and goes behind the text at once.

ghost use Rattle.std.specs.Prelude.{◌≡◌, ◌<◌, ◌≤◌, ◌+◌, ◌*◌, ◌^◌, ◌++◌, OnOk, length, map, flat_map, replicate, take};
ghost use Rattle.lnbd_hexdump.specs.Dump.{cell, digit, group_line, hex, letter, width};
ghost use Rattle.lnbd_hexdump.specs.Written.{written};

use std::alloc::AllocError;

/// How many bytes a group has.
pub(crate) const GROUP: usize = 16;

/// How long the longest line is: that of a whole group whose position has 16 digits.
const LONGEST: usize = 86;

/// The digits by their values.
const DIGITS: [u8; 16] = *b"0123456789abcdef";

fn digit(value: u8) -> u8
    requires { value < 16 }
    ensures { result ≡ digit value }
{
    DIGITS[value as usize]
}

fn letter(byte: u8) -> u8
    ensures { result ≡ letter byte }
{
    if b' ' <= byte && byte <= b'~' {
        byte
    } else {
        b'.'
    }
}

fn width(position: u64) -> usize
    ensures value { result ≡ width position }
    ensures least { 10 ≤ result }
    ensures most { result ≤ 16 }
{
    if position < 1 << 40 {
        10
    } else if position < 1 << 44 {
        11
    } else if position < 1 << 48 {
        12
    } else if position < 1 << 52 {
        13
    } else if position < 1 << 56 {
        14
    } else if position < 1 << 60 {
        15
    } else {
        16
    }
}

/// Writes a number's last digits, so many, at the front of the line.
fn write_hex(line: &mut [u8], width: usize, n: u64)
    requires { width ≤ length line.old }
    ensures size { length line.new ≡ length line.old }
    ensures written { line.new ≡ written line.old 0 (hex width n) }
{
    if width == 0 {
        return;
    }
    line[width - 1] = digit((n % 16) as u8);
    write_hex(line, width - 1, n / 16);
}

/// Writes the cells of a group from a place on.
fn write_cells(line: &mut [u8], at: usize, group: &[u8])
    requires { at + 3 * length group.now ≤ length line.old }
    ensures size { length line.new ≡ length line.old }
    ensures written { line.new ≡ written line.old at (flat_map cell group.now) }
{
    'cells: for i in 0..group.len() {
        let byte = group[i];
        line[at + 3 * i] = digit(byte / 16);
        line[at + 3 * i + 1] = digit(byte % 16);
        line[at + 3 * i + 2] = b' ';
    }
}

/// Writes the letters of a group from a place on.
fn write_letters(line: &mut [u8], at: usize, group: &[u8])
    requires { at + length group.now ≤ length line.old }
    ensures size { length line.new ≡ length line.old }
    ensures written { line.new ≡ written line.old at (map letter group.now) }
{
    'letters: for i in 0..group.len() {
        line[at + i] = letter(group[i]);
    }
}

/// Writes the line of a group into blanks, and tells how long it is.
fn write_line(line: &mut [u8], position: u64, group: &[u8]) -> usize
    requires blank { line.old ≡ replicate 86 32 }
    requires most { length group.now ≤ 16 }
    ensures within { result ≤ length line.new }
    ensures written { take result line.new ≡ group_line position group.now }
{
    let width = width(position);
    write_hex(line, width, position);
    line[width] = b':';
    let cells = width + 2;
    write_cells(line, cells, group);
    let letters = cells + 3 * GROUP + 2;
    line[letters - 1] = b'|';
    write_letters(line, letters, group);
    let end = letters + group.len();
    line[end] = b'|';
    line[end + 1] = b'\n';
    end + 2
}

/// The line of a group goes behind the text.
pub(crate) fn push_line(text: &mut Vec<u8>, position: u64, group: &[u8]) -> Result<(), AllocError>
    requires { length group.now ≤ 16 }
    ensures { OnOk result (text.new.items ≡ text.old.items ++ group_line position group.now) }
{
    let mut line = [b' '; LONGEST];
    let length = write_line(&mut line, position, group);
    text.extend_from_slice(&line[..length])
}
