//! Where a text is cut.
ghost use Rattle.std.specs.Prelude.{◌≡◌, ℕ, ◌+◌, ◌≤◌, Bool, drop, length};
ghost use Rattle.std.specs.List.{before_first, position_or_len};
ghost use Rattle.text.specs.Cuts.{IsTest};

// The offset of the first byte from `from` on for which `ends` holds; else the end, or `from` where that lies past it.
// By offset: with `position` on the bytes ahead, tokens take up to a third more instructions.
pub(crate) fn end<F: Fn(u8) -> bool>(text: &[u8], from: usize, ends: F) -> usize
    requires { F.IsAlwaysCallable ends }
    ensures offset { (p : ℕ → Bool) → IsTest (F.post ends) p → result ≡ from + position_or_len p (drop from text.now) }
    ensures within { from ≤ length text.now → result ≤ length text.now }
    ensures from { from ≤ result }
{
    for i in from..text.len() {
        if ends(text[i]) {
            return i;
        }
    }
    from.max(text.len())
}

// The bytes before the first for which `ends` holds, or all.
pub(crate) fn before<F: Fn(u8) -> bool>(text: &[u8], ends: F) -> &[u8]
    requires { F.IsAlwaysCallable ends }
    ensures bytes { (p : ℕ → Bool) → IsTest (F.post ends) p → result.now ≡ before_first p text.now }
    ensures within { length result.now ≤ length text.now }
{
    &text[..end(text, 0, ends)]
}
