// Arithmetic on words of 32 bits (document 01, "The machine").
#![tactic(auto)]

ghost use Rattle.std.specs.Prelude.{◌≡◌, ◌+◌, ◌*◌};
ghost use Rattle.model.specs.Word.{low, less as less_of, after as after_of, truth};
ghost use Rattle.model.specs.Execute.{above as above_of};

// The low 32 bits of a sum.
pub fn plus(a: u32, b: u32) -> u32
    ensures { result ≡ low (a + b) }
{
    a.wrapping_add(b)
}

// The word a - b.
pub fn less(a: u32, b: u32) -> u32
    ensures { result ≡ less_of a b }
{
    a.wrapping_sub(b)
}

// The low 32 bits of a product.
pub fn product(a: u32, b: u32) -> u32
    ensures { result ≡ low (a * b) }
{
    a.wrapping_mul(b)
}

// 1 where the word b is above a, both signed; else 0.
pub fn above(b: u32, a: u32) -> u32
    ensures { result ≡ truth (above_of b a) }
{
    u32::from(a.cast_signed() < b.cast_signed())
}

// The time x is after y: x less y, read signed, is above 0 (document 02, order 4).
pub fn after(x: u32, y: u32) -> bool
    ensures { result ≡ after_of x y }
{
    less(x, y).cast_signed() > 0
}
