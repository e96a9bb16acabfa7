// Runs loops of ten million instructions each, for measuring the run, and writes for each its name, the answer and the memory afterwards.
// speed/plain.rs is a plain machine to compare with, over the same codes.
//
// Each code is the compiler's for the Occam told above it. A line of the byte string has the instructions of the comment's line; 20, 60 and
// their like are prefixes.
#![tactic(auto)]

use lines::print;
use std::io::Stdout;

// Writes words.
fn print_words(out: Stdout, memory: &[u32]) {
    for &word in memory {
        print(out, b" ", word as u64);
    }
}

// The instructions of a run whose budget was used; 0 for any other answer.
fn spent(answer: model::RunAnswer) -> u64 {
    match answer {
        Ok(model::Outcome::Spent(n)) => n,
        _ => 0,
    }
}

// Starts a machine over a code with W = 20 and no outside channels, runs it, and writes the answer and the memory.
fn measure(out: Stdout, name: &[u8], code: &[u8]) {
    let mut memory = [0; 20];
    let begun = machine::start(code, &mut memory, 20, 0, 0, model::limits::BENCH_SLICE);
    let ran = machine::run(begun.machine, code, &mut memory, 10000000, 0);
    lines::write(out, name);
    print(out, b" spent ", spent(ran.answer));
    print_words(out, &memory);
    lines::write(out, b"\n");
}

// Arithmetic and jumps alone. VAR i, s:
//     WHILE i > -1: s := s * 3 + (i XOR s); IF s > i: s := s - i, 1: SKIP; i := i + 1
//
// AJW -2; LDC 0; STL 0; LDC 0; STL 1
// LDL 0; LDC -1; GT; CJ 45
// LDL 1; LDC 3; PROD; LDL 0; LDL 1; XOR; SUM; STL 1
// LDL 1; LDL 0; GT; CJ 8; LDL 1; LDL 0; DIFF; STL 1; J 11
// LDC 1; CJ 4; J 2; STOPP
// LDL 0; LDC 1; SUM; STL 0; J -53; AJW 2
fn arithmetic(out: Stdout) {
    measure(
        out,
        b"arithmetic",
        b"\x60\xbe\x40\xd0\x40\xd1\
        \x70\x60\x4f\xf9\x20\x20\x22\xad\
        \x71\x43\xf8\x70\x71\x23\xf3\x25\xf2\xd1\
        \x71\x70\xf9\x20\x20\x20\xa8\x71\x70\xf4\xd1\x20\x20\x20\x0b\
        \x41\x20\x20\x20\xa4\x20\x20\x20\x02\x21\xf5\
        \x70\x41\x25\xf2\xd0\x60\x2f\x2c\x0b\xb2",
    );
}

// The same with a communication in every sixteenth turn. VAR i, s, t: CHAN c:
//     WHILE i > -1: s and IF as above; IF (i AND 15) = 0: (PAR c ! s + 1, c ? t); s := s XOR t, 1: SKIP; i := i + 1
//
// AJW -3; LDC 0; STL 0; LDC 0; STL 1; LDC 0; STL 2; AJW -1; MINT; STL 0
// LDL 1; LDC -1; GT; CJ 113
// LDL 2; LDC 3; PROD; LDL 1; LDL 2; XOR; SUM; STL 2
// LDL 2; LDL 1; GT; CJ 8; LDL 2; LDL 1; DIFF; STL 2; J 11
// LDC 1; CJ 4; J 2; STOPP
// LDL 1; LDC 15; AND; LDC 0; DIFF; EQC 0; CJ 46
// AJW -2; LDC 28; LDPI; STL 0; LDC 2; STL 1; LDC 12; LDLP -4; STARTP
// LDL 4; LDC 1; SUM; LDLP 2; REV; AJW -1; OUTWORD; AJW 1; LDLP 0; ENDP
// LDLP 9; LDLP 6; LDC 4; IN; LDLP 4; ENDP
// AJW 2; LDL 2; LDL 3; XOR; STL 2; J 11
// LDC 1; CJ 4; J 2; STOPP
// LDL 1; LDC 1; SUM; STL 1; J -121; AJW 1; AJW 3
fn mixed(out: Stdout) {
    measure(
        out,
        b"mixed",
        b"\x60\xbd\x40\xd0\x40\xd1\x40\xd2\x60\xbf\x24\xf2\xd0\
        \x71\x60\x4f\xf9\x20\x20\x27\xa1\
        \x72\x43\xf8\x71\x72\x23\xf3\x25\xf2\xd2\
        \x72\x71\xf9\x20\x20\x20\xa8\x72\x71\xf4\xd2\x20\x20\x20\x0b\
        \x41\x20\x20\x20\xa4\x20\x20\x20\x02\x21\xf5\
        \x71\x4f\x24\xf6\x40\xf4\xc0\x20\x20\x22\xae\
        \x60\xbe\x20\x20\x21\x4c\x21\xfb\xd0\x42\xd1\x20\x20\x20\x4c\x60\x1c\xfd\
        \x74\x41\x25\xf2\x12\xf0\x60\xbf\xff\xb1\x10\xf3\
        \x19\x16\x44\xf7\x14\xf3\
        \xb2\x72\x73\x23\xf3\xd2\x20\x20\x20\x0b\
        \x41\x20\x20\x20\xa4\x20\x20\x20\x02\x21\xf5\
        \x71\x41\x25\xf2\xd1\x60\x2f\x28\x07\xb1\xb3",
    );
}

// A communication in every turn. CHAN c: PAR of
//     VAR i: WHILE i > -1: c ! i; i := i + 1
//     VAR t, s: WHILE 1: c ? t; s := s + t
//
// AJW -1; MINT; STL 0
// AJW -2; LDC 68; LDPI; STL 0; LDC 2; STL 1; LDC 31; LDLP -5; STARTP
// AJW -1; LDC 0; STL 0; LDL 0; LDC -1; GT; CJ 16
// LDL 0; LDLP 3; REV; AJW -1; OUTWORD; AJW 1
// LDL 0; LDC 1; SUM; STL 0; J -24
// AJW 1; LDLP 0; ENDP; AJW -2; LDC 0; STL 0; LDC 0; STL 1
// LDC 1; CJ 13
// LDLP 0; LDLP 9; LDC 4; IN
// LDL 1; LDL 0; SUM; STL 1; J -18
// AJW 2; LDLP 5; ENDP; AJW 2; AJW 1
fn communication(out: Stdout) {
    measure(
        out,
        b"communication",
        b"\x60\xbf\x24\xf2\xd0\
        \x60\xbe\x20\x20\x24\x44\x21\xfb\xd0\x42\xd1\x20\x20\x21\x4f\x60\x1b\xfd\
        \x60\xbf\x40\xd0\x70\x60\x4f\xf9\x20\x20\x21\xa0\
        \x70\x13\xf0\x60\xbf\xff\xb1\
        \x70\x41\x25\xf2\xd0\x60\x2f\x2e\x08\
        \xb1\x10\xf3\x60\xbe\x40\xd0\x40\xd1\
        \x41\x20\x20\x20\xad\
        \x10\x19\x44\xf7\
        \x71\x70\x25\xf2\xd1\x60\x2f\x2e\x0e\
        \xb2\x15\xf3\xb2\xb1",
    );
}

// A choice in every turn. CHAN c, d: PAR of
//     VAR i: WHILE 1: c ! i; i := i + 1
//     VAR i: WHILE 1: d ! i; i := i + 3
//     VAR t, s: WHILE 1: ALT 1 and c ? t: s := s + t, 1 and d ? t: s := s XOR t
//
// AJW -2; MINT; STL 0; MINT; STL 1
// AJW -2; LDC 157; LDPI; STL 0; LDC 3; STL 1
// LDC 35; LDLP -5; STARTP; LDC 56; LDLP -10; STARTP
// AJW -1; LDC 0; STL 0; LDC 1; CJ 16
// LDL 0; LDLP 3; REV; AJW -1; OUTWORD; AJW 1
// LDL 0; LDC 1; SUM; STL 0; J -21
// AJW 1; LDLP 0; ENDP; AJW -1; LDC 0; STL 0; LDC 1; CJ 16
// LDL 0; LDLP 9; REV; AJW -1; OUTWORD; AJW 1
// LDL 0; LDC 3; SUM; STL 0; J -21
// AJW 1; LDLP 5; ENDP; AJW -2; LDC 0; STL 0; LDC 0; STL 1
// LDC 1; CJ 70; AJW -1; ALT
// LDC 1; LDLP 15; REV; ENBC; LDC 1; LDLP 16; REV; ENBC
// ALTWT; LDC 1; LDLP 15; REV; LDC 0; DISC
// LDC 1; LDLP 16; REV; LDC 14; DISC; ALTEND
// AJW 1; LDLP 0; LDLP 14; LDC 4; IN; LDL 1; LDL 0; SUM; STL 1; J 14
// AJW 1; LDLP 0; LDLP 15; LDC 4; IN; LDL 1; LDL 0; XOR; STL 1; J 0
// J -75; AJW 2; LDLP 10; ENDP; AJW 2; AJW 2
fn alternative(out: Stdout) {
    measure(
        out,
        b"alternative",
        b"\x60\xbe\x24\xf2\xd0\x24\xf2\xd1\
        \x60\xbe\x20\x20\x29\x4d\x21\xfb\xd0\x43\xd1\
        \x20\x20\x22\x43\x60\x1b\xfd\x20\x20\x23\x48\x60\x16\xfd\
        \x60\xbf\x40\xd0\x41\x20\x20\x21\xa0\
        \x70\x13\xf0\x60\xbf\xff\xb1\
        \x70\x41\x25\xf2\xd0\x60\x2f\x2e\x0b\
        \xb1\x10\xf3\x60\xbf\x40\xd0\x41\x20\x20\x21\xa0\
        \x70\x19\xf0\x60\xbf\xff\xb1\
        \x70\x43\x25\xf2\xd0\x60\x2f\x2e\x0b\
        \xb1\x15\xf3\x60\xbe\x40\xd0\x40\xd1\
        \x41\x20\x20\x24\xa6\x60\xbf\x24\xf3\
        \x41\x1f\xf0\x24\xf8\x41\x21\x10\xf0\x24\xf8\
        \x24\xf4\x41\x1f\xf0\x20\x20\x20\x40\x22\xff\
        \x41\x21\x10\xf0\x20\x20\x20\x4e\x22\xff\x24\xf5\
        \xb1\x10\x1e\x44\xf7\x71\x70\x25\xf2\xd1\x20\x20\x20\x0e\
        \xb1\x10\x1f\x44\xf7\x71\x70\x23\xf3\xd1\x20\x20\x20\x00\
        \x60\x2f\x2b\x05\xb2\x1a\xf3\xb2\xb2",
    );
}

fn main(rt: HostRuntime) {
    let out = rt.stdout();
    arithmetic(out);
    mixed(out);
    communication(out);
    alternative(out);
}
