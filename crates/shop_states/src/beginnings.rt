// Keeps the placement of a word's first jobs, since words filled one after the other mostly begin alike.
ghost use Rattle.std.specs.Prelude.{◌≡◌, ◌≤◌, IfOk, length, take};
ghost use Rattle.shop_model.specs.Word.{IsWord, placing};
ghost use Rattle.shop_states.specs.inner.{Beginnings.{HasRoomOf, IsBeginningOf, Begins}, PlacedNexts.IsPlacedAt};

use crate::placing::{place_from, place_none};
use shop_lanes::StateLanes;
use shop_layout::LaidOut;
use shop_model::Instance;
use std::alloc::{AllocError as NoMemory, Global};

/// How many of a word's last jobs a kept beginning leaves out, since the next word often differs in them.
const LEFT_OUT: usize = 32;

/// The first jobs of a word, with the index of each job's next leg, its `ready` time and each machine's `free` time.
pub struct Beginning {
    /// the first `len` entries are the jobs of the beginning
    path: Vec<u16>,
    len: usize,
    next_legs: Vec<u32>,
    ready: Vec<u64>,
    free: Vec<u64>,
}

// Not derived: a derived `Drop` would be compiled anew into each function that has a beginning.
impl Drop for Beginning {
    fn drop(self) {
        let Beginning {
            path: _,
            len: _,
            next_legs: _,
            ready: _,
            free: _,
        } = self;
    }
}

/// Writes `front` over the first entries of `row`.
fn write_front(row: &mut [u16], front: &[u16])
    requires { length front.now ≤ length row.old }
    ensures long { length row.new ≡ length row.old }
    ensures front { take (length front.now) row.new ≡ front.now }
{
    row[..front.len()].copy_from_slice(front);
}

impl Beginning {
    /// Makes the empty beginning, with room for any word of the instance. Fails with `NoMemory` if memory runs out.
    pub(crate) fn new<L: StateLanes>(
        alloc: Global,
        laid_out: &LaidOut<L>,
    ) -> Result<Beginning, NoMemory>
        ensures { IfOk result (λ b. IsBeginningOf laid_out.now.shop laid_out.now.layout b) }
    {
        let mut beginning = Beginning::with_room(alloc, laid_out.instance())?;
        beginning.clear(laid_out);
        Ok(beginning)
    }

    /// Makes room for the beginning of any word of `instance`. Compiled once for lanes of all widths. Fails with
    /// `NoMemory` if memory runs out.
    #[inline(never)]
    fn with_room(alloc: Global, instance: &Instance) -> Result<Beginning, NoMemory>
        ensures { IfOk result (HasRoomOf instance.now) }
    {
        Ok(Beginning {
            path: vec![in alloc; 0; instance.operations()]?,
            len: 0,
            next_legs: vec![in alloc; 0; instance.jobs()]?,
            ready: vec![in alloc; 0; instance.jobs()]?,
            free: vec![in alloc; 0; instance.machines()]?,
        })
    }

    /// Empties the beginning.
    fn clear<L: StateLanes>(&mut self, laid_out: &LaidOut<L>)
        requires room { HasRoomOf laid_out.now.shop self.old }
        ensures is { IsBeginningOf laid_out.now.shop laid_out.now.layout self.new }
        ensures none { self.new.len ≡ 0 }
    {
        let next_legs = self.next_legs.as_mut_slice();
        let ready = self.ready.as_mut_slice();
        place_none(laid_out, next_legs, ready, self.free.as_mut_slice());
        self.len = 0;
    }

    /// Empties the beginning unless the word `path` starts with the beginning's jobs.
    fn keep_for<L: StateLanes>(&mut self, laid_out: &LaidOut<L>, path: &[u16])
        requires is { IsBeginningOf laid_out.now.shop laid_out.now.layout self.old }
        ensures is { IsBeginningOf laid_out.now.shop laid_out.now.layout self.new }
        ensures begins { Begins path.now self.new }
    {
        let kept = &self.path[..self.len];
        if path.starts_with(kept) {
            return;
        }
        self.clear(laid_out);
    }

    /// Extends the beginning to all but the last `LEFT_OUT` jobs of `path`, a word that starts with the beginning,
    /// unless it is longer already.
    fn extend<L: StateLanes>(&mut self, laid_out: &LaidOut<L>, path: &[u16])
        requires is { IsBeginningOf laid_out.now.shop laid_out.now.layout self.old }
        requires begins { Begins path.now self.old }
        requires word { IsWord laid_out.now.shop path.now }
        ensures is { IsBeginningOf laid_out.now.shop laid_out.now.layout self.new }
        ensures begins { Begins path.now self.new }
    {
        let to = path.len().saturating_sub(LEFT_OUT);
        if to <= self.len {
            return;
        }
        let ahead = &path[..to];
        let next_legs = self.next_legs.as_mut_slice();
        let ready = self.ready.as_mut_slice();
        let free = self.free.as_mut_slice();
        place_from(laid_out, next_legs, ready, free, ahead, self.len);
        write_front(self.path.as_mut_slice(), ahead);
        self.len = to;
    }

    /// Writes the placement of the word `path` into `next_legs`, `ready` and `free`. Keeps its beginning for the next
    /// word.
    pub(crate) fn place_word<L: StateLanes>(
        &mut self,
        laid_out: &LaidOut<L>,
        next_legs: &mut [u32],
        ready: &mut [u64],
        free: &mut [u64],
        path: &[u16],
    )
        requires is { IsBeginningOf laid_out.now.shop laid_out.now.layout self.old }
        requires next { length next_legs.old ≡ length laid_out.now.shop.jobs }
        requires ready { length ready.old ≡ length laid_out.now.shop.jobs }
        requires free { length free.old ≡ laid_out.now.shop.machines }
        requires word { IsWord laid_out.now.shop path.now }
        ensures is { IsBeginningOf laid_out.now.shop laid_out.now.layout self.new }
        ensures placed { IsPlacedAt laid_out.now.shop (placing laid_out.now.shop path.now)
            laid_out.now.layout next_legs.new ready.new free.new }
    {
        self.keep_for(laid_out, path);
        self.extend(laid_out, path);
        next_legs.copy_from_slice(self.next_legs.as_slice());
        ready.copy_from_slice(self.ready.as_slice());
        free.copy_from_slice(self.free.as_slice());
        place_from(laid_out, next_legs, ready, free, path, self.len);
    }
}
