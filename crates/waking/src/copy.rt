// A copy of the machine's words, of which no start gives more than 4,096.
ghost use Rattle.std.specs.Prelude.{◌≡◌, ◌≤◌, length, take};

// The words of the memory are kept.
pub fn save(memory: &[u32], saved: &mut [u32; 4096])
    requires { (length memory.now ≤ 4096) × (length saved.old ≡ 4096) }
    ensures kept { take (length memory.now) saved.new ≡ memory.now }
    ensures long { length saved.new ≡ 4096 }
{
    saved[..memory.len()].copy_from_slice(memory);
}

// And given back.
pub fn restore(memory: &mut [u32], saved: &[u32; 4096])
    requires { (length memory.old ≤ 4096) × (length saved.now ≡ 4096) }
    ensures { memory.new ≡ take (length memory.old) saved.now }
{
    memory.copy_from_slice(&saved[..memory.len()]);
}
