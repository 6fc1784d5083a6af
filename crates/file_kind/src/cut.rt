//! Bytes cut at the first of some byte.

ghost use Rattle.std.specs.{Prelude.{◌≡◌, ◌≤◌, ◌==◌, length, position}, List.{position_or_len, before_first, after_first}};

fn first_place(bytes: &[u8], at: u8) -> Option<usize>
    ensures { result ≡ position (λ b. b == at) bytes.now }
{
    bytes.iter().position(|byte| *byte == at)
}

/// The first place of a byte, or the length where there is none.
#[tactic(auto, using(quantity_text::proofs::Runs::place_or_len))]
fn place_of(bytes: &[u8], at: u8) -> usize
    ensures place { result ≡ position_or_len (λ b. b == at) bytes.now }
    ensures within { result ≤ length bytes.now }
{
    first_place(bytes, at).unwrap_or(bytes.len())
}

/// What stands before the first of these bytes, all where there is none.
pub fn before(bytes: &[u8], at: u8) -> &[u8]
    ensures { result.now ≡ before_first (λ b. b == at) bytes.now }
{
    &bytes[..place_of(bytes, at)]
}

/// What follows it, nothing where there is none.
pub fn after(bytes: &[u8], at: u8) -> &[u8]
    ensures { result.now ≡ after_first (λ b. b == at) bytes.now }
{
    let place = place_of(bytes, at);
    if place < bytes.len() {
        &bytes[place + 1..]
    } else {
        &[]
    }
}
