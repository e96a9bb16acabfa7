// The words in which names stand: one array, the variables in scope in front, the channels behind them. Names of an inner scope are only
// ever added behind those of the outer one, so a scope overwrites what is behind its own end.
ghost use Rattle.std.specs.Prelude.{◌≡◌, List, ℕ, ◌+◌, ◌-◌, ◌≤◌, get_or};
ghost use Rattle.expressions.specs.Names.{Shown, WithVariables, WithChannels, local_of, fill_into, declare_into};
ghost use Rattle.expressions.specs.Names.{entered, most_names};

use numbers::kinds::Declared;

// The most names of a kind that are in scope together: 32 for each of 32 levels, and the outside channels as those of one more. Behind the
// words of so many variables are those of the channels.
const MOST: u32 = 1056;

const CHANNELS: usize = MOST as usize;

// The words of the variables in scope, and behind them those of the channels.
pub type Words = [u32; 2112];

// The depth left, the workspace, and how many variables and channels are in scope.
#[derive(Clone, Copy)]
pub struct Scope {
    pub depth: u64,
    pub w: u32,
    pub variables: u32,
    pub channels: u32,
}

// The word of one of so many names, whose words begin at an index; 0 of one that is not in scope.
fn word_of(words: &Words, first: usize, count: u32, name: u32) -> u32
    requires { first ≤ most_names }
    ensures { (vs : List ℕ) → Shown first count words.now vs → result ≡ get_or vs name 0 }
{
    if count <= name || MOST <= name {
        return 0;
    }
    words[first + name as usize]
}

// A variable's word, counted from w.
pub fn variable(words: &Words, count: u32, name: u32, w: u32) -> u32
    ensures { WithVariables count words.now (λ vs. result ≡ local_of vs name w) }
{
    word::less(word_of(words, 0, count, name), w)
}

// A channel's word, counted from w.
pub fn channel(words: &Words, count: u32, name: u32, w: u32) -> u32
    ensures { WithChannels count words.now (λ cs. result ≡ local_of cs name w) }
{
    word::less(word_of(words, CHANNELS, count, name), w)
}

// So many names behind so many stand in the words from w on. Of more names than there can be none.
fn fill(words: &mut Words, first: usize, names: u32, count: u32, w: u32)
    requires { first ≤ most_names }
    ensures { words.new ≡ fill_into first names count w words.old }
{
    if MOST < names || MOST - names < count {
        return;
    }
    let start = first + names as usize;
    let mut word = w;
    for index in start..start + count as usize {
        words[index] = word;
        word = word::plus(word, 1);
    }
}

// The scope of a VAR or CHAN of so many names, which stand in the words from its workspace on.
pub fn enter(words: &mut Words, declared: Declared, count: u32, scope: Scope) -> Scope
    ensures scope { result ≡ entered declared count scope }
    ensures names { words.new ≡ declare_into declared count (scope.w - count) scope words.old }
{
    let w = below(scope.w, count);
    match declared {
        Declared::Variables => {
            fill(words, 0, scope.variables, count, w);
            Scope {
                w,
                variables: word::plus(scope.variables, count),
                ..scope
            }
        }
        Declared::Channels => {
            fill(words, CHANNELS, scope.channels, count, w);
            Scope {
                w,
                channels: word::plus(scope.channels, count),
                ..scope
            }
        }
    }
}

// A workspace n words below.
pub fn below(w: u32, n: u32) -> u32
    ensures { result ≡ w - n }
{
    w.saturating_sub(n)
}
