// Codes instructions and decodes them again, and writes their bytes and what decoding answers, a line for each.
#![tactic(auto)]

ghost use Rattle.std.specs.Prelude.{◌≤◌};

use instruction::{Instruction, codes};
use std::io::Stdout;

// Writes a decoded instruction: its function, its operand and the place after it.
fn print_instruction(out: Stdout, decoded: Instruction) {
    let Instruction {
        function,
        operand,
        next,
    } = decoded;
    lines::print_hex(out, b"", function as u64);
    lines::print_word(out, b" ", operand as u64);
    lines::print(out, b" to ", next as u64);
}

// Writes what decoding from a place answers.
fn print_decoded(out: Stdout, code: &[u8], from: usize) {
    lines::write(out, b" -> ");
    match instruction::decode(code, from) {
        Some(decoded) => print_instruction(out, decoded),
        None => lines::write(out, b"nothing"),
    }
    lines::write(out, b"\n");
}

// An instruction at the place 2, with so many prefixes.
fn print_coded(out: Stdout, function: u8, count: u32, operand: u32)
    requires { count ≤ 7 }
{
    let mut code = [0xeeu8; 16];
    instruction::put_instruction(&mut code, 2, count, function, operand);
    lines::print_word(out, b"", operand as u64);
    let end = 3 + count as usize;
    lines::print_bytes(out, b" ", &code[2..end]);
    print_decoded(out, &code, 2);
}

// The fewest prefixes for an operand, or three if that is more, as a distance has them.
fn prefixes(operand: u32, distance: bool) -> u32
    ensures { result ≤ 7 }
{
    let fewest = instruction::fewest(operand);
    if distance { fewest.max(3) } else { fewest }
}

// A function with each of some operands.
fn print_all(out: Stdout, function: u8, distance: bool, operands: &[u32]) {
    for operand in operands {
        print_coded(out, function, prefixes(*operand, distance), *operand);
    }
}

// The guide's examples: #3, #35, #754, #987 and -31.
fn guide(out: Stdout) {
    let operands: [u32; 5] = [0x3, 0x35, 0x754, 0x987, 0xffffffe1];
    print_all(out, codes::LDC, false, &operands);
}

// Where operands from 0 on begin to need one prefix more.
fn positive(out: Stdout) {
    let operands: [u32; 13] = [
        0, 1, 15, 16, 255, 256, 4095, 4096, 65535, 65536, 0xfffffff, 0x10000000, 0x7fffffff,
    ];
    print_all(out, codes::AJW, false, &operands);
}

// The same below 0: -1, -16, -17, -256, -257, -4096, -4097, -65536, -65537, -2^28 - 1 and -2^31.
fn negative(out: Stdout) {
    let few: [u32; 5] = [0xffffffff, 0xfffffff0, 0xffffffef, 0xffffff00, 0xfffffeff];
    print_all(out, codes::AJW, false, &few);
    let many: [u32; 6] = [
        0xfffff000, 0xffffefff, 0xffff0000, 0xfffeffff, 0xefffffff, 0x80000000,
    ];
    print_all(out, codes::AJW, false, &many);
}

// Distances have three prefixes.
fn distances(out: Stdout) {
    let operands: [u32; 5] = [0, 1, 0xffffffff, 65535, 0xffff0000];
    print_all(out, codes::J, true, &operands);
}

// Each operation, as OPR codes it.
fn operations(out: Stdout) {
    let operands: [u32; 22] = [
        codes::REV,
        codes::ENDP,
        codes::DIFF,
        codes::IN,
        codes::PROD,
        codes::GT,
        codes::STARTP,
        codes::OUTWORD,
        codes::STOPP,
        codes::LDPI,
        codes::DISC,
        codes::DISS,
        codes::XOR,
        codes::MINT,
        codes::ALT,
        codes::ALTWT,
        codes::ALTEND,
        codes::AND,
        codes::ENBC,
        codes::ENBS,
        codes::OR,
        codes::SUM,
    ];
    print_all(out, codes::OPR, false, &operands);
}

// Each direct function, with the operand 5.
fn direct(out: Stdout) {
    let functions: [u8; 9] = [
        codes::J,
        codes::LDLP,
        codes::LDC,
        codes::LDL,
        codes::CJ,
        codes::AJW,
        codes::EQC,
        codes::STL,
        codes::OPR,
    ];
    for function in functions {
        print_coded(out, function, 0, 5);
    }
}

// Writes code and what decoding from a place answers.
fn print_code(out: Stdout, code: &[u8], from: usize) {
    lines::print_bytes(out, b" ", code);
    print_decoded(out, code, from);
}

// Before the end, at a prefix that the code ends in, at the end and behind it.
fn ends(out: Stdout) {
    let code: [u8; 4] = [0x41, 0x27, 0x65, 0x21];
    for from in [0, 1, 3, 4, 5, usize::MAX] {
        print_code(out, &code, from);
    }
}

// NFIX behind PFIX, another coding of -257; more digits than a word has; and no code.
fn others(out: Stdout) {
    let guide: [u8; 3] = [0x21, 0x60, 0x4f];
    print_code(out, &guide, 0);
    let long: [u8; 10] = [0x21, 0x22, 0x23, 0x24, 0x25, 0x26, 0x27, 0x28, 0x29, 0x3a];
    print_code(out, &long, 0);
    print_code(out, &long[0..0], 0);
}

// Bytes for which there is no room are left out.
fn outside(out: Stdout) {
    let mut code: [u8; 2] = [0, 0];
    instruction::put_instruction(&mut code, 0, 2, codes::LDC, 0x754);
    print_code(out, &code, 0);
    instruction::put_instruction(&mut code, 4294967295, 3, codes::LDC, 0x754);
    print_code(out, &code, 0);
    lines::print_word(out, b"", word::plus(4294967294, 5) as u64);
    lines::write(out, b"\n");
}

fn main(rt: HostRuntime) {
    let out = rt.stdout();
    guide(out);
    positive(out);
    negative(out);
    distances(out);
    operations(out);
    direct(out);
    ends(out);
    others(out);
    outside(out);
}
