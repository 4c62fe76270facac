//! The groups of a quota layer.

ghost use Rattle.std.specs.Prelude.{◌≡◌, ◌+◌, ◌≤◌, List, ℕ, length, min, IfOk};
ghost use Rattle.vfs_model.specs.Pass.{group_from, group_of, limit_at, is_number, sum_of_group, total_of, greatest_total, quota_says, reached, len_at};

use crate::glob::matches;
use crate::open::{OpenFile, len_at, reached};
use std::alloc::{AllocError, Global};
use std::marker::Model;
use vfs_model::Group;

/// The limits of the groups of a quota layer, 0 for none. Contracts see them as a list.
#[derive(Debug, Drop)]
pub struct Limits {
    limits: Vec<u64>,
}

impl Model for Limits {
    ghost use Rattle.std.specs.Prelude.{List, ℕ};

    ghost Value = { List ℕ };

    ghost view = { λ l. l.limits.items };
}

impl Limits {
    /// The limits of a vector, without taking memory.
    pub fn from_vec(limits: Vec<u64>) -> Limits
        ensures { result ≡ limits.items }
    {
        Limits { limits }
    }

    /// The limits.
    pub fn as_slice(&self) -> &[u64]
        ensures { result.now ≡ self.now }
    {
        self.limits.as_slice()
    }
}

/// The number from 0 of the group of a file: the first whose pattern matches its name.
pub fn group_of(groups: &[Group], name: &[u8]) -> Option<usize>
    ensures { result ≡ group_of groups.now name.now }
{
    group_from(0, groups, name)
}

/// The group of a file among those from a number on.
fn group_from(number: usize, groups: &[Group], name: &[u8]) -> Option<usize>
    requires { number + length groups.now ≤ usize.MAX }
    ensures { result ≡ group_from number groups.now name.now }
{
    let Some((first, more)) = groups.split_first() else {
        return None;
    };
    if matches(first.glob.bytes(), name) {
        return Some(number);
    }
    group_from(number + 1, more, name)
}

/// The limit of a group, 0 for none.
fn limit_at(limits: &[u64], number: usize) -> u64
    ensures { result ≡ limit_at limits.now number }
{
    let Some((first, more)) = limits.split_first() else {
        return 0;
    };
    if number == 0 {
        return *first;
    }
    limit_at(more, number - 1)
}

/// Whether a file is of the group of this number.
fn is_of(groups: &[Group], number: usize, name: &[u8]) -> bool
    ensures { result ≡ is_number number (group_of groups.now name.now) }
{
    match group_of(groups, name) {
        Some(other) => number == other,
        None => false,
    }
}

/// The lengths of the open files of a group together; more than 2^64 - 1 count as that.
#[tactic(auto, using(crate::proofs::QuotaLemmas::total_more))]
fn total_of(groups: &[Group], number: usize, files: &[OpenFile]) -> u64
    ensures { result ≡ total_of groups.now number files.now }
{
    let Some((first, more)) = files.split_first() else {
        return 0;
    };
    let own = if is_of(groups, number, first.name()) {
        first.len()
    } else {
        0
    };
    own.saturating_add(total_of(groups, number, more))
}

/// The total and the limit of a group that refuses a write, up to this end, of a file of it.
pub fn quota_says(
    alloc: Global,
    groups: &[Group],
    limits: &[u64],
    files: &[OpenFile],
    name: &[u8],
    end: u64,
) -> Result<Option<(u64, u64)>, AllocError>
    ensures { IfOk result (λ says. says ≡ quota_says groups.now limits.now files.now name.now end (group_of groups.now name.now)) }
{
    let Some(number) = group_of(groups, name) else {
        return Ok(None);
    };
    if len_at(name, files) >= end {
        return Ok(None);
    }
    let limit = limit_at(limits, number);
    let after = reached(alloc, name, end, files)?;
    let total = total_of(groups, number, after.as_slice());
    if limit == 0 || total <= limit {
        return Ok(None);
    }
    Ok(Some((total, limit)))
}
