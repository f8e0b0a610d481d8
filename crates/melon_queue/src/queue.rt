ghost use Rattle.std.specs.Prelude.{◌≡◌, ◌<◌, bytes_eq, vec_len, IfOk};
ghost use Rattle.std.specs.List.{list_any};
ghost use Rattle.melon_queue.specs.Queues.{first, rest, is_first};

use melon_raw::Id;
use melon_schema::Twin;
use std::alloc::{AllocError, Global};
use std::marker::Model;

/// Why a writer doesn't enter.
#[derive(Debug, Drop)]
pub enum QueueFault {
    /// The writer stands in the queue already.
    Queued,
    /// Another holds the queue, or none does.
    NotHolder { holder: Option<Id> },
    /// There are 64 names already, or the holder has entered 64 times; `count` is 64.
    Full { count: u64 },
    Memory,
}

impl From<AllocError> for QueueFault {
    ghost use Rattle.std.specs.Prelude.{◌≡◌};
    ghost use Rattle.melon_queue.specs.declared.queue.QueueFault.TheVariants.{Memory};

    ghost from_gives = { λ _ e. e ≡ Memory };

    fn from(_: AllocError) -> Self {
        QueueFault::Memory
    }
}

/// What a writer leaves behind.
#[derive(Clone, Copy, Debug, PartialEq, Eq)]
pub enum Left {
    /// It holds the queue still, at this depth.
    Depth(usize),
    /// The next of the queue holds it.
    Next,
    /// Nobody holds the queue.
    Free,
    /// It doesn't hold the queue, which is as it was.
    NotHolder,
}

/// The most names, and the greatest depth.
const MOST: usize = 64;

/// Writers under their names, in the order in which they entered. The first holds the queue.
#[derive(Debug, Drop)]
pub struct Queue {
    names: Vec<Id>,
    depth: usize,
}

impl Model for Queue {
    ghost use Rattle.melon_queue.specs.Seen.{SeenQueue, IsQueue};

    ghost Value = { SeenQueue };

    ghost view = { λ q. record { names = q.names.items; depth = q.depth } };

    ghost invariant = { λ q. IsQueue (record { names = q.names.items; depth = q.depth }) };
}

fn is_same(name: &Id, writer: &Id) -> bool
    ensures { result ≡ bytes_eq name.now writer.now }
{
    name.as_str() == writer.as_str()
}

fn has_entered(names: &[Id], writer: &Id) -> bool
    ensures { result ≡ list_any (λ name. bytes_eq name writer.now) names.now }
{
    names.iter().any(|name| is_same(name, writer))
}

fn copy_first(alloc: Global, names: &[Id]) -> Result<Option<Id>, AllocError>
    ensures { IfOk result (λ holder. holder ≡ first names.now) }
{
    match names.first() {
        Some(name) => Ok(Some(name.copy(alloc)?)),
        None => Ok(None),
    }
}

fn is_first(names: &[Id], writer: &Id) -> bool
    ensures { result ≡ is_first writer.now names.now }
{
    match names.first() {
        Some(name) => is_same(name, writer),
        None => false,
    }
}

fn drop_first(names: &mut Vec<Id>)
    requires { 0 < vec_len names.old }
    ensures { names.new.items ≡ rest names.old.items }
{
    let _ = names.remove(0);
}

impl Queue {
    ghost use Rattle.std.specs.Prelude.{◌≡◌, []};
    ghost use Rattle.std.specs.Option.{option_copied};
    ghost use Rattle.melon_queue.specs.Seen.{IsQueue};
    ghost use Rattle.melon_queue.specs.Queues.{first, rest, holder_of, entered, nested, quit, Steps};

    /// A queue that nobody holds, which takes no memory.
    pub fn new(alloc: Global) -> Queue
        ensures { result ≡ record { names = []; depth = 0 } }
    {
        Queue {
            names: Vec::new(alloc),
            depth: 0,
        }
    }

    /// Puts the writer at the end, and answers how many stand before it. A writer that stands in the queue is `Queued`; a
    /// 65th name finds it `Full`. After a fault the queue is as it was.
    pub fn enter(&mut self, alloc: Global, writer: Id) -> Result<usize, QueueFault>
        ensures { Steps result self.old self.new (entered writer self.old) }
    {
        let before = self.names.len();
        if has_entered(self.names.as_slice(), &writer) {
            return Err(QueueFault::Queued);
        }
        if before >= MOST {
            return Err(QueueFault::Full {
                count: before as u64,
            });
        }
        if self.names.push(writer).is_err() {
            return Err(QueueFault::Memory);
        }
        if before == 0 {
            self.depth = 1;
        }
        Ok(before)
    }

    /// Lets the holder enter once more, and answers its new depth, which is 64 at most. Any other writer is `NotHolder`.
    /// After a fault the queue is as it was.
    pub fn nest(&mut self, alloc: Global, writer: &Id) -> Result<usize, QueueFault>
        ensures { Steps result self.old self.new (nested writer.now self.old) }
    {
        let holds = is_first(self.names.as_slice(), writer);
        if !holds {
            return match copy_first(alloc, self.names.as_slice()) {
                Ok(holder) => Err(QueueFault::NotHolder { holder }),
                Err(_) => Err(QueueFault::Memory),
            };
        }
        if self.depth >= MOST {
            return Err(QueueFault::Full {
                count: self.depth as u64,
            });
        }
        self.depth += 1;
        Ok(self.depth)
    }

    /// Lets the holder leave once.
    pub fn leave(&mut self, writer: &Id) -> Left
        ensures { (result, self.new) ≡ quit writer.now self.old }
    {
        if !is_first(self.names.as_slice(), writer) {
            return Left::NotHolder;
        }
        if self.depth > 1 {
            self.depth -= 1;
            return Left::Depth(self.depth);
        }
        drop_first(&mut self.names);
        if self.names.is_empty() {
            self.depth = 0;
            return Left::Free;
        }
        Left::Next
    }

    /// The name that holds the queue once the holder has left it.
    pub fn next(&self) -> Option<&Id>
        ensures { option_copied result ≡ first (rest self.now.names) }
    {
        self.names.get(1)
    }

    /// The name that holds the queue.
    pub fn holder(&self) -> Option<&Id>
        ensures holder { option_copied result ≡ holder_of self.now }
        ensures well { IsQueue self.now }
    {
        self.names.first()
    }
}
