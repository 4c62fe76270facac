//! Open files, the connections that lock them, and the five lock levels.

ghost use Rattle.std.specs.Prelude.{◌≡◌, ◌↔◌, IsSome, IfSome};
ghost use Rattle.vfs_model.specs.Lock.{IsOwner};

use std::marker::Model;

/// An open file of a stack, by its number.
#[derive(Clone, Copy, Debug, PartialEq, Eq)]
pub struct Fid(pub u32);

/// A connection that holds locks, numbered from 1 to 8. Contracts see it as its number.
#[derive(Clone, Copy, Debug, PartialEq, Eq)]
pub struct Owner {
    number: u8,
}

impl Model for Owner {
    ghost use Rattle.std.specs.Prelude.{ℕ, ◌≤◌};

    ghost Value = { ℕ };

    ghost view = { λ o. o.number };

    ghost invariant = { λ o. (1 ≤ o.number) × (o.number ≤ 8) };

    ghost inverse = { λ n. record { number = n } };
}

impl Owner {
    /// The connection with this number, or `None` where there is none such.
    pub fn new(number: u8) -> Option<Owner>
        ensures numbered { IsSome result ↔ IsOwner number }
        ensures value { IfSome result (λ owner. owner ≡ number) }
    {
        if !(1..=8).contains(&number) {
            return None;
        }
        Some(Owner { number })
    }

    /// The number of the connection, from 1 to 8.
    pub fn number(&self) -> u8
        ensures value { result ≡ self.now }
        ensures owner { IsOwner result }
    {
        self.number
    }
}

/// The lock levels of SQLite in rising order. `Free` is SQLite's NONE.
///
/// After sqlite.org, "File Locking And Concurrency In SQLite Version 3", section 3.
#[derive(Clone, Copy, Debug, PartialEq, Eq, PartialOrd, Ord)]
pub enum Level {
    /// No lock.
    Free,
    /// May read; others may too.
    Shared,
    /// Means to write; others may still read.
    Reserved,
    /// Waits for the readers to end; no new one comes.
    Pending,
    /// Writes; no other holds a lock.
    Exclusive,
}

#[cfg(test)]
mod tests {
    use super::*;

    #[test]
    fn owners_are_one_to_eight(rt: HostRuntime) {
        for number in 0..=u8::MAX {
            let owner = Owner::new(number);
            let named = owner.map(|owner| owner.number());
            let expected = if number == 0 || number > 8 {
                None
            } else {
                Some(number)
            };
            assert!(rt; named == expected, "{number}");
        }
    }
}
