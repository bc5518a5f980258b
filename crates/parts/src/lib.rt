// Parts of lent bytes: the definitions that say what a lender's bytes are after a part was lent on, with their laws; bytes made zero,
// and a list laid into bytes.
#![tactic(auto)]

ghost use Rattle.std.specs.Prelude.{◌≡◌, length, replicate};
ghost use Rattle.parts.specs.Parts.{padded};

// Every byte becomes 0. Ruled out: the last byte left as it was; a byte that becomes 1.
pub fn zero(bytes: &mut [u8])
    ensures { bytes.new ≡ replicate (length bytes.old) 0 }
{
    bytes.fill(0);
}

// Lays a list into bytes, zeros behind it; what has no room is left out. Ruled out: the last byte of the list lost; what stood behind the list kept.
pub fn lay(to: &mut [u8], list: &[u8])
    ensures { to.new ≡ padded (length to.old) list.now }
{
    let copied = to.len().min(list.len());
    let (front, rest) = to.split_at_mut(copied);
    front.copy_from_slice(&list[..copied]);
    zero(rest);
}
