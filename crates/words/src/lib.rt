// Numbers out of bytes, low byte first.
#![tactic(auto)]

ghost use Rattle.std.specs.Prelude.{◌≡◌, ◌+◌, ◌≤◌, ◌<◌, length};
ghost use Rattle.machine.specs.CallFile.{two, four};

// Two bytes, low byte first. The library has a function for each width, so there are two here.
#[tactic(auto, unfolding(machine::specs::CallFile::two))]
pub fn two_at(b: &[u8], i: usize) -> u32
    requires { (i + 2 ≤ length b.now) × (i < 1000000) }
    ensures { (result ≡ two b.now i) × (result < 65536) }
{
    u32::from(u16::from_le_bytes([b[i], b[i + 1]]))
}

// Four bytes, low byte first.
#[tactic(auto, unfolding(machine::specs::CallFile::four))]
pub fn four_at(b: &[u8], i: usize) -> u32
    requires { (i + 4 ≤ length b.now) × (i < 1000000) }
    ensures { result ≡ four b.now i }
{
    u32::from_le_bytes([b[i], b[i + 1], b[i + 2], b[i + 3]])
}
