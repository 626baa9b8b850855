// What a run compares: every byte of a buffer that was lent.
#![tactic(auto)]

ghost use Rattle.std.specs.Prelude.{◌≡◌};
ghost use Rattle.compare.specs.Buffers.{holds_only};

/// Does the buffer hold the result, and behind it nothing but the fill?
pub fn holds(buffer: &[u8], res: &[u8], fill: u8) -> bool
    ensures { result ≡ holds_only buffer.now res.now fill }
{
    match buffer.strip_prefix(res) {
        Some(behind) => behind.iter().all(|&byte| byte == fill),
        None => false,
    }
}
