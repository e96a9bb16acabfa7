// The numbers of a line.
ghost use Rattle.std.specs.Prelude.{◌≡◌, ◌≤◌, length};
ghost use Rattle.lines.specs.Rows.{low_bytes};

// The number at a place, or 0 where the line has no more.
pub fn at(numbers: &[u64], place: usize) -> u64 {
    numbers.get(place).copied().unwrap_or(0)
}

// The number at a place as a word.
pub fn word(numbers: &[u64], place: usize) -> u32 {
    (at(numbers, place) % 4294967296) as u32
}

// The number at a place as a flag.
pub fn flag(numbers: &[u64], place: usize) -> bool {
    at(numbers, place) != 0
}

// The lesser of a number and a length.
pub fn least(a: u64, b: usize) -> usize
    ensures { result ≤ b }
{
    if a < b as u64 { a as usize } else { b }
}

// The first so many numbers, or all if there are fewer.
pub fn front(numbers: &[u64], count: u64) -> &[u64] {
    let end = least(count, numbers.len());
    &numbers[..end]
}

// The numbers behind the first so many.
pub fn rest(numbers: &[u64], count: u64) -> &[u64] {
    let from = least(count, numbers.len());
    &numbers[from..]
}

// The low bytes of numbers, as far as there is room, and how many they are. The rest of the buffer stays as it was.
pub fn to_bytes(numbers: &[u64], bytes: &mut [u8]) -> usize
    ensures bytes_after { bytes.new ≡ low_bytes numbers.now bytes.old }
    ensures upper_bound { result ≤ length bytes.new }
{
    let count = numbers.len().min(bytes.len());
    for i in 0..count {
        bytes[i] = (numbers[i] % 256) as u8;
    }
    count
}
