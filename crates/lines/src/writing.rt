// Numbers and bytes to standard output. What is written is compared with an expected text, so a write that fails shows there.
use std::fmt::Display;
use std::io::Stdout;

// Writes a text.
pub fn write(out: Stdout, text: &[u8]) {
    let _written = out.write_all(text).is_ok();
}

// Writes a value.
pub fn show<T: Display>(out: Stdout, value: &T) {
    let _written = out.print(value).is_ok();
}

// Writes a number behind its name, in decimal.
pub fn print(out: Stdout, name: &[u8], number: u64) {
    write(out, name);
    let _written = out.print(number).is_ok();
}

// Writes a number behind its name, in hexadecimal.
pub fn print_hex(out: Stdout, name: &[u8], number: u64) {
    write(out, name);
    let _written = out.print(format_args!("{number:x}")).is_ok();
}

// Writes a word behind its name, in eight hexadecimal digits.
pub fn print_word(out: Stdout, name: &[u8], word: u64) {
    write(out, name);
    let _written = out.print(format_args!("{word:08x}")).is_ok();
}

// Writes a byte behind a text, in two digits.
fn print_byte(out: Stdout, before: &[u8], byte: u8) {
    write(out, before);
    let _written = out.print(format_args!("{byte:02x}")).is_ok();
}

// Writes bytes, each behind the same text.
pub fn print_bytes(out: Stdout, before: &[u8], bytes: &[u8]) {
    for &byte in bytes {
        print_byte(out, before, byte);
    }
}
