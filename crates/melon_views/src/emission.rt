use melon_query::Shown;
use melon_raw::Id;
use melon_schema::{List, Twin};
use std::alloc::{AllocError, Global};

/// What an observer shows of an answer: the ids, or the ids with the cells of the columns at these places.
#[derive(Debug, Drop)]
pub enum Shape {
    Ids,
    Columns(List<usize>),
}

/// What is shown of an answer, in the answer's order.
#[derive(Debug, Drop)]
pub enum Emission {
    Ids(List<Id>),
    Rows(List<Shown>),
}

/// What one turn of an observer gives, with the number of entries after which it stands: an emission, or nothing new.
#[derive(Debug, Drop)]
pub enum Turn {
    Emit(u64, Emission),
    Still(u64),
}

impl Twin for Emission {
    fn copy(&self, alloc: Global) -> Result<Emission, AllocError> {
        match self {
            Emission::Ids(ids) => Ok(Emission::Ids(ids.copy(alloc)?)),
            Emission::Rows(rows) => Ok(Emission::Rows(rows.copy(alloc)?)),
        }
    }

    fn same(&self, other: &Emission) -> bool {
        match (self, other) {
            (Emission::Ids(ours), Emission::Ids(theirs)) => ours.same(theirs),
            (Emission::Rows(ours), Emission::Rows(theirs)) => ours.same(theirs),
            (Emission::Ids(_), Emission::Rows(_)) => false,
            (Emission::Rows(_), Emission::Ids(_)) => false,
        }
    }
}
