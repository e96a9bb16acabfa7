// Held offers.
ghost use Rattle.processor.specs.Quiet.{HeldAt};

// The number of the input whose word c is, where an offer is held on it. A caller's machine may count over 8 inputs.
pub fn held_at(c: u32, setup: model::Setup, held: &[bool; 8]) -> Option<usize>
    ensures { HeldAt c setup held.now result }
{
    let k = c.checked_sub(setup.base)?;
    if k < setup.inputs && k < model::limits::START_CHANNELS && held[k as usize] {
        return Some(k as usize);
    }
    None
}
