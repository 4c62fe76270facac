//! The table of the locks on one file.

ghost use Rattle.lock_table.specs.declared.table.TheConstants.{OWNERS};
ghost use Rattle.std.specs.Prelude.{◌≡◌, ◌+◌, ◌<◌, ◌↔◌, length, IsTrue, IfSome, IfNone};
ghost use Rattle.vfs_model.specs.Lock.{all_free, level_at, MayAsk, KeepsOut, IsHolder, IsUnhindered, Lowers};
ghost use Rattle.lock_table.specs.Take.{Takes};

use std::marker::Model;
use thiserror::Error;
use vfs_model::{Level, Owner};

/// How many connections there are.
const OWNERS: usize = 8;

/// Why a level was refused: another connection holds one that keeps it out.
#[derive(Clone, Copy, Debug, PartialEq, Eq, Error)]
#[error("locked by another connection")]
pub struct Busy {
    /// The least connection in the way.
    pub holder: Owner,
    /// The level that it holds.
    pub level: Level,
}

/// The level that each connection holds on one file. Contracts see it as the list of the levels, that of
/// connection 1 first. No call takes memory.
#[derive(Debug, Drop)]
pub struct LockTable {
    levels: [Level; OWNERS],
}

impl Model for LockTable {
    ghost use Rattle.std.specs.Prelude.{◌≡◌, List, length};
    ghost use Rattle.vfs_model.specs.declared.level.Level.{Level};

    ghost Value = { List Level };

    ghost view = { λ t. t.levels };

    ghost invariant = { λ t. length t.levels ≡ 8 };
}

impl LockTable {
    /// The table where no connection holds a lock.
    pub fn new() -> LockTable
        ensures { result ≡ all_free }
    {
        LockTable {
            levels: [Level::Free; OWNERS],
        }
    }

    /// The level that a connection holds.
    pub fn level_of(&self, owner: Owner) -> Level
        ensures value { result ≡ level_at self.now owner }
        ensures eight { length self.now ≡ 8 }
    {
        self.levels[place_of(owner)]
    }

    /// Gives a connection the level that it asks, or says which other is in the way. A level that it holds
    /// or has passed is granted and changes nothing.
    ///
    /// Refused Exclusive, the connection holds Pending. Refused another level, it holds what it held.
    pub fn take(&mut self, owner: Owner, level: Level) -> Result<(), Busy>
        requires { MayAsk self.old owner level }
        ensures { Takes self.old self.new owner level result }
    {
        if level <= self.level_of(owner) {
            return Ok(());
        }
        if let Some(holder) = self.holder(owner, level) {
            if level == Level::Exclusive {
                self.levels[place_of(owner)] = Level::Pending;
            }
            let level = self.level_of(holder);
            return Err(Busy { holder, level });
        }
        self.levels[place_of(owner)] = level;
        Ok(())
    }

    /// Lowers the level of a connection to this one. A level that is no higher stays.
    pub fn drop_to(&mut self, owner: Owner, level: Level)
        ensures { Lowers self.old self.new owner level }
    {
        if level < self.level_of(owner) {
            self.levels[place_of(owner)] = level;
        }
    }

    /// The least other connection that is in the way of this level.
    fn holder(&self, owner: Owner, level: Level) -> Option<Owner>
        ensures found { IfSome result (IsHolder self.now owner level) }
        ensures none { IfNone result (IsUnhindered self.now owner level) }
    {
        for number in 1..=8 {
            let other = Owner::new(number).unwrap();
            if other != owner && keeps_out(level, self.level_of(other)) {
                return Some(other);
            }
        }
        None
    }
}

/// Where the level of a connection stands in a table.
fn place_of(owner: Owner) -> usize
    ensures value { result + 1 ≡ owner }
    ensures within { result < OWNERS }
{
    usize::from(owner.number()) - 1
}

/// Whether a level that another connection holds keeps this one out.
fn keeps_out(level: Level, other: Level) -> bool
    ensures { IsTrue result ↔ KeepsOut level other }
{
    match level {
        Level::Free | Level::Pending => false,
        Level::Shared => other >= Level::Pending,
        Level::Reserved => other >= Level::Reserved,
        Level::Exclusive => other != Level::Free,
    }
}

#[cfg(test)]
mod tests {
    use super::*;
    use std::process::Abort;
    use std::test::Fail;

    /// Takes a level after the checks that a caller owes.
    fn take(
        rt: &impl Abort,
        table: &mut LockTable,
        owner: Owner,
        level: Level,
    ) -> Result<(), Busy> {
        match level {
            Level::Shared => {}
            Level::Reserved => assert!(rt; table.level_of(owner) >= Level::Shared),
            Level::Exclusive => assert!(rt; table.level_of(owner) >= Level::Reserved),
            Level::Free | Level::Pending => panic!(rt; "nobody asks {level:?}"),
        }
        table.take(owner, level)
    }

    /// Who takes what, who is named as the holder and with which level, and what the asking one holds then.
    #[test]
    fn readers_end_before_a_writer_comes(rt: HostRuntime) -> Result<(), Fail> {
        let takes = [
            (2, Level::Shared, None, Level::Shared),
            (5, Level::Shared, None, Level::Shared),
            (5, Level::Reserved, None, Level::Reserved),
            (8, Level::Shared, None, Level::Shared),
            (
                8,
                Level::Reserved,
                Some((5, Level::Reserved)),
                Level::Shared,
            ),
            (5, Level::Shared, None, Level::Reserved),
            (
                5,
                Level::Exclusive,
                Some((2, Level::Shared)),
                Level::Pending,
            ),
            (1, Level::Shared, Some((5, Level::Pending)), Level::Free),
            (8, Level::Reserved, Some((5, Level::Pending)), Level::Shared),
            (2, Level::Shared, None, Level::Shared),
            (5, Level::Reserved, None, Level::Pending),
        ];
        let mut table = LockTable::new();
        for (number, level, refused, after) in takes {
            let owner = Owner::new(number).ok_or("an owner")?;
            let busy = take(&rt, &mut table, owner, level).err();
            let named = busy.map(|busy| (busy.holder.number(), busy.level));
            assert!(rt; named == refused, "{number} asks {level:?}");
            assert!(rt; table.level_of(owner) == after, "{number} asked {level:?}");
        }
        Ok(())
    }

    #[test]
    fn a_level_only_falls(rt: HostRuntime) -> Result<(), Fail> {
        let owner = Owner::new(1).ok_or("an owner")?;
        let mut table = LockTable::new();
        take(&rt, &mut table, owner, Level::Shared)?;
        take(&rt, &mut table, owner, Level::Reserved)?;
        take(&rt, &mut table, owner, Level::Exclusive)?;
        let falls = [
            (Level::Exclusive, Level::Exclusive),
            (Level::Shared, Level::Shared),
            (Level::Pending, Level::Shared),
            (Level::Free, Level::Free),
        ];
        for (level, after) in falls {
            table.drop_to(owner, level);
            assert!(rt; table.level_of(owner) == after, "to {level:?}");
        }
        Ok(())
    }
}
