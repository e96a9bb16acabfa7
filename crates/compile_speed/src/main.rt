// Compiles the table of standard input a hundred times, for measuring, and writes the code's length, or a refusal's number and what it
// returns. speed/tables.py makes tables for it.
#![tactic(auto)]

// Compiles the table into a buffer of the largest size.
fn compile_once(table: &[u8]) -> Result<usize, model::Refusal> {
    let mut out = [0; model::limits::CODE];
    compiler::compile_into(table, &mut out)
}

// Compiles the table a hundred times; the answer is the last one's.
fn compile_hundred(table: &[u8]) -> Result<usize, model::Refusal> {
    let mut answer = compile_once(table);
    for _ in 1..100 {
        answer = compile_once(table);
    }
    answer
}

// Reads into room for the longest table and one byte more, so that a longer input is refused and not cut off.
fn main(rt: HostRuntime) {
    let out = rt.stdout();
    let mut table = [0; model::limits::TABLE + 1];
    let n = lines::read_full(rt.stdin(), &mut table);
    match compile_hundred(&table[..n]) {
        Ok(size) => lines::print(out, b"bytes ", size as u64),
        Err(refusal) => {
            let number = refusal.reason.number();
            lines::show(
                out,
                &format_args!("refused {number} with {}", refusal.returned),
            );
        }
    }
    lines::write(out, b"\n");
}
