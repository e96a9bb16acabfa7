// Registers with some of them changed.
ghost use Rattle.std.specs.Prelude.{◌≡◌};
ghost use Rattle.model.specs.Machine.{stack as stack_of, goto as goto_of, work as work_of};

// The stack A, B, C.
pub fn stack(r: model::Cpu, a: u32, b: u32, c: u32) -> model::Cpu
    ensures { result ≡ stack_of a b c r }
{
    model::Cpu { a, b, c, ..r }
}

// The place of the next byte.
pub fn goto(r: model::Cpu, place: u32) -> model::Cpu
    ensures { result ≡ goto_of place r }
{
    model::Cpu { place, ..r }
}

// The workspace pointer W.
pub fn work(r: model::Cpu, w: u32) -> model::Cpu
    ensures { result ≡ work_of w r }
{
    model::Cpu { workspace: w, ..r }
}
