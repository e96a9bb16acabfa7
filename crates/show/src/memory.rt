// Words of memory.
use std::io::Stdout;

// Makes every word 7700 and its address: what words hold before the first call.
pub fn fill(words: &mut [u32]) {
    let mut value: u32 = 0x7700;
    for word in words {
        *word = value;
        value = value.wrapping_add(1);
    }
}

// A sum over words, in which each has its weight.
pub fn sum(words: &[u32]) -> u64 {
    words.iter().fold(0, |total: u64, word: &u32| {
        (total % 4294967296 * 31 + *word as u64) % 4294967296
    })
}

// Writes a word's address, or an offer's input, with its value.
pub fn print_value(out: Stdout, i: usize, value: u32) {
    lines::show(out, &format_args!(" {i:x}={value:x}"));
}
