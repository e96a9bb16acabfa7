// The bench program (document 01): reads a table from standard input and prints its code, its outputs and how it stood.
//
// What fails outside is said on standard error, in one line. The exit status is 0 all the same: a caller that has to know looks at standard
// error.
#![tactic(auto)]

ghost use Rattle.std.specs.Prelude.{◌≤◌, length, IfOk};

use std::io::{self, Read, Stderr, Stdin};

// Reads until the input ends or the room is full, and answers how many bytes stand at its front. A read may bring only a part, as from a
// pipe.
fn read_table(mut input: Stdin, room: &mut [u8]) -> io::Result<usize>
    ensures { IfOk result (λ n. n ≤ length room.new) }
{
    let mut n = 0;
    while n < room.len() {
        let more = input.read(&mut room[n..])?;
        if more == 0 {
            break;
        }
        n += more;
    }
    Ok(n)
}

// Says on standard error what failed.
fn say(errors: Stderr, line: &[u8]) {
    let _written = errors.write_all(line).is_ok();
}

// Lends room for the longest table and one byte more, so that a longer input is refused and not cut off.
fn main(rt: HostRuntime) {
    let mut table = [0; model::limits::TABLE + 1];
    match read_table(rt.stdin(), &mut table) {
        Ok(n) => {
            if console::print_report(rt.stdout(), &table[..n]).is_err() {
                say(rt.stderr(), b"bench: cannot write standard output\n");
            }
        }
        Err(_) => say(rt.stderr(), b"bench: cannot read standard input\n"),
    }
}
