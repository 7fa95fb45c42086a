ghost use Rattle.std.specs.Prelude.{◌≡◌, min, length, take};

/// Copies as many bytes as there are and as fit, from the front of `from` to the front of `piece`,
/// and gives their number.
pub(crate) fn copy_front(from: &[u8], piece: &mut [u8]) -> usize
    ensures count { result ≡ min (length from.now) (length piece.old) }
    ensures front { take result piece.new ≡ take result from.now }
{
    let count = from.len().min(piece.len());
    piece[..count].copy_from_slice(&from[..count]);
    count
}
