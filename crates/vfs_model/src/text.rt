//! Texts that are kept in arrays, with zeros behind them.

ghost use Rattle.std.specs.Prelude.{◌≡◌, ◌+◌, ◌≤◌, ◌++◌, length, drop, replicate};
ghost use Rattle.vfs_model.specs.Padded.{padded};

/// Lays two texts, one behind the other, over zeros.
pub fn lay(space: &mut [u8], front: &[u8], tail: &[u8])
    requires zeros { space.old ≡ replicate (length space.old) 0 }
    requires room { length front.now + length tail.now ≤ length space.old }
    ensures { space.new ≡ padded (length space.old) (front.now ++ tail.now) }
{
    overlay(space, front);
    overlay(&mut space[front.len()..], tail);
}

/// Puts the text in front of what stands in the space behind it.
fn overlay(space: &mut [u8], text: &[u8])
    requires { length text.now ≤ length space.old }
    ensures { space.new ≡ text.now ++ drop (length text.now) space.old }
{
    space[..text.len()].copy_from_slice(text);
}
