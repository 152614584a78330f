//! Adds to a list with room, so that a call can take its memory first and not fail later.
ghost use Rattle.std.specs.Prelude.{◌≡◌, ◌<◌, ◌≤◌, ◌+◌, ◌∷◌, ◌++◌, [], vec_len, vec_capacity};

/// Adds an item at the end of a list that has room for it.
pub fn push_within<T: Drop>(items: &mut Vec<T>, item: T)
    requires { vec_len items.old < vec_capacity items.old }
    ensures items { items.new.items ≡ items.old.items ++ item ∷ [] }
    ensures capacity { vec_capacity items.old ≤ vec_capacity items.new }
    ensures len { vec_len items.new ≡ vec_len items.old + 1 }
{
    match items.push(item) {
        Ok(()) => {}
        Err(_) => unreachable!(),
    }
}
