ghost use Rattle.std.specs.Prelude.{◌≡◌, ◌≤◌, ◌↔◌, ℕ, List, length, IsTrue, IfSome, IsSomeAnd};
ghost use Rattle.cal_fields.specs.Padded.{padded, zeros};

/// Whether all bytes are zero.
pub fn is_zeros(bytes: &[u8]) -> bool
    ensures { IsTrue result ↔ (bytes.now ≡ zeros (length bytes.now)) }
{
    for byte in bytes {
        if *byte != 0 {
            return false;
        }
    }
    true
}

/// The first `count` bytes, where zeros alone stand behind them.
pub fn padded_front(bytes: &[u8], count: usize) -> Option<&[u8]>
    requires { count ≤ length bytes.now }
    ensures length { IfSome result (λ front. length front.now ≡ count) }
    ensures found { IfSome result (λ front. bytes.now ≡ padded (length bytes.now) front.now) }
    ensures again { (front : List ℕ) → length front ≡ count → bytes.now ≡ padded (length bytes.now) front
        → IsSomeAnd result (λ found. found.now ≡ front) }
{
    if is_zeros(&bytes[count..]) {
        return Some(&bytes[..count]);
    }
    None
}
