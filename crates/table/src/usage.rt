// What a part of a program does to names (document 02, order 3), as four sets of names by number, each of up to 1,024. A set has 16 words:
// the name of number 64 i + j is bit j of its word i.
ghost use Rattle.std.specs.Prelude.{◌≡◌, ◌<◌, ◌≤◌};
ghost use Rattle.table.specs.Uses.{mark_at, change_at, forget_at, leave_at, met_at, clashing, merged};

use numbers::kinds::Declared;

// The four sets stay one array: what the reader promises of them (`usage_sets`) is one list of 64 words, and `merge` is one loop over it.
// The first words of the sets: variables assigned or input, variables read, assigned or input, channels input from, channels output to.
pub const CHANGES: usize = 0;

pub const USES: usize = 16;

pub const INPUTS: usize = 32;

pub const OUTPUTS: usize = 48;

// A name goes into a set.
pub fn mark(sets: &mut [u64; 64], set: usize, name: u64)
    requires { (set ≤ 48) × (name < 1024) }
    ensures { sets.new ≡ mark_at set name sets.old }
{
    let word = set + (name / 64) as usize;
    sets[word] |= 1 << (name % 64);
}

// A variable that is assigned or input is also used.
#[tactic(auto, unfolding(crate::specs::Uses::change_at))]
pub fn change(sets: &mut [u64; 64], name: u64)
    requires { name < 1024 }
    ensures { sets.new ≡ change_at name sets.old }
{
    mark(sets, CHANGES, name);
    mark(sets, USES, name);
}

// The names from a number on leave a set. At most 32 were declared there, so they are in two words.
fn forget(sets: &mut [u64; 64], set: usize, names: u64)
    requires { (set ≤ 48) × (names < 1024) }
    ensures { sets.new ≡ forget_at set names sets.old }
{
    let word = set + (names / 64) as usize;
    sets[word] %= 1 << (names % 64);
    if names / 64 < 15 {
        sets[word + 1] = 0;
    }
}

// The names of a VAR or CHAN leave the sets behind it, where so many were in scope before.
#[tactic(auto, unfolding(crate::specs::Uses::leave_at))]
pub fn leave(sets: &mut [u64; 64], declared: Declared, variables: u64, channels: u64)
    requires { (variables < 1024) × (channels < 1024) }
    ensures { sets.new ≡ leave_at declared variables channels sets.old }
{
    match declared {
        Declared::Variables => {
            forget(sets, CHANGES, variables);
            forget(sets, USES, variables);
        }
        Declared::Channels => {
            forget(sets, INPUTS, channels);
            forget(sets, OUTPUTS, channels);
        }
    }
}

// The names of one word that two branches may not have together: one changes what the other uses, or both input from, or output to, a
// channel.
#[tactic(auto, unfolding(crate::specs::Uses::met_at))]
fn common(before: &[u64; 64], branch: &[u64; 64], k: usize) -> u64
    requires { k < 16 }
    ensures { result ≡ met_at k before.now branch.now }
{
    let changed = before[k] & branch[USES + k] | branch[k] & before[USES + k];
    changed | before[INPUTS + k] & branch[INPUTS + k] | before[OUTPUTS + k] & branch[OUTPUTS + k]
}

// Whether two branches may not stand in one PAR.
pub fn clash(before: &[u64; 64], branch: &[u64; 64]) -> bool
    ensures { result ≡ clashing before.now branch.now }
{
    let mut names: u64 = 0;
    for k in 0..16 {
        names |= common(before, branch, k);
    }
    0 < names
}

// The sets of several branches together.
pub fn merge(sets: &mut [u64; 64], branch: &[u64; 64])
    ensures { sets.new ≡ merged 64 sets.old branch.now }
{
    for (k, &word) in branch.iter().enumerate() {
        sets[k] |= word;
    }
}
