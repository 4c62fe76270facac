//! Copies of what owns memory.

ghost use Rattle.std.specs.Prelude.{◌≡◌, ◌++◌, IfOk, OnOk};

use byte_base::{ByteLists, Bytes};
use db_format::{Create, Record, TableEntry, Value};
use std::alloc::{AllocError, Global};

/// What can be copied whole.
pub(crate) trait Twin: Drop {
    fn twin(&self, alloc: Global) -> Result<Self, AllocError>
        ensures { IfOk result (λ twin. twin ≡ self.now) };
}

/// Copies of all the items of a list.
pub(crate) fn twins<T: Twin>(alloc: Global, items: &[T]) -> Result<Vec<T>, AllocError>
    ensures { IfOk result (λ twins. twins.items ≡ items.now) }
{
    let mut all = Vec::new(alloc);
    push_twins(alloc, &mut all, items)?;
    Ok(all)
}

/// Puts copies of items behind others.
pub(crate) fn push_twins<T: Twin>(
    alloc: Global,
    all: &mut Vec<T>,
    items: &[T],
) -> Result<(), AllocError>
    ensures { OnOk result (all.new.items ≡ all.old.items ++ items.now) }
{
    match items {
        [] => Ok(()),
        [item, more @ ..] => {
            all.push(item.twin(alloc)?)?;
            push_twins(alloc, all, more)
        }
    }
}

impl Twin for i64 {
    fn twin(&self, _alloc: Global) -> Result<i64, AllocError> {
        Ok(*self)
    }
}

impl Twin for u32 {
    fn twin(&self, _alloc: Global) -> Result<u32, AllocError> {
        Ok(*self)
    }
}

impl Twin for Bytes {
    fn twin(&self, alloc: Global) -> Result<Bytes, AllocError> {
        Bytes::copy_of(alloc, self.as_slice())
    }
}

impl Twin for ByteLists {
    fn twin(&self, alloc: Global) -> Result<ByteLists, AllocError> {
        Ok(ByteLists::from_vec(twins(alloc, self.as_slice())?))
    }
}

impl Twin for Value {
    fn twin(&self, alloc: Global) -> Result<Value, AllocError> {
        match self {
            Value::Null => Ok(Value::Null),
            Value::Int(number) => Ok(Value::Int(*number)),
            Value::Text(bytes) => Ok(Value::Text(bytes.twin(alloc)?)),
            Value::Blob(bytes) => Ok(Value::Blob(bytes.twin(alloc)?)),
            Value::Real(bits) => Ok(Value::Real(*bits)),
        }
    }
}

impl Twin for Record {
    fn twin(&self, alloc: Global) -> Result<Record, AllocError> {
        Ok(Record::from_vec(twins(alloc, self.as_slice())?))
    }
}

impl Twin for TableEntry {
    fn twin(&self, alloc: Global) -> Result<TableEntry, AllocError> {
        match self {
            TableEntry::Plain(create) => {
                let name = create.name.twin(alloc)?;
                let columns = create.columns.twin(alloc)?;
                Ok(TableEntry::Plain(Create { name, columns }))
            }
            TableEntry::Foreign(name) => Ok(TableEntry::Foreign(name.twin(alloc)?)),
        }
    }
}

impl<A: Twin, B: Twin> Twin for (A, B) {
    fn twin(&self, alloc: Global) -> Result<(A, B), AllocError> {
        Ok((self.0.twin(alloc)?, self.1.twin(alloc)?))
    }
}
