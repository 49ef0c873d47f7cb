//! The buffers for the resolution of paragraphs, in two parts: those to find the sequences, and those to resolve them.
ghost use Rattle.std.specs.Prelude.{◌≡◌, ◌+◌, IfOk, drop, length, take};
ghost use Rattle.std.specs.Box.{boxed_slice_items, boxed_slice_len};
ghost use Rattle.explicit.specs.IsolateMaps.{room};
ghost use Rattle.paragraph.specs.Resolvers.{Results, Work};

use explicit::isolates::IsolateMap;
use explicit::levels::Explicit;
use resolve::pairs::Pairs;
use sequences::sequences::Sequences;
use std::alloc::Global;
use std::boxed::BoxedSlice;
use std::marker::Model;
use units::class::Class;
use units::memory::Memory;

/// The buffers to find the sequences of a paragraph (BD9, X1 to X10), with the results for the last paragraph.
/// Contracts see these results, and the capacity in positions.
#[derive(Drop)]
pub struct RoomToFind {
    pub isolates: IsolateMap,
    pub explicit: Explicit,
    pub sequences: Sequences,
}

impl Model for RoomToFind {
    ghost Value = { Results };

    ghost view = { λ r. record {
      room = length r.explicit;
      isolates = r.isolates;
      explicit = r.explicit;
      sequences =
          r.sequences.all;
    } };

    ghost invariant = { λ r. (room r.isolates ≡ length r.explicit) × (r.sequences.room ≡ length r.explicit) };
}

impl RoomToFind {
    /// Makes the buffers for `n` positions.
    pub fn with_room(alloc: Global, n: usize) -> Result<RoomToFind, Memory>
        ensures { IfOk result (λ made. made.room ≡ n) }
    {
        Ok(RoomToFind {
            isolates: IsolateMap::with_room(alloc, n)?,
            explicit: Explicit::with_room(alloc, n)?,
            sequences: Sequences::with_room(alloc, n)?,
        })
    }
}

/// Makes two columns of `n` classes, one after the other. Fails with `Memory` if memory is refused, or if `n` is
/// 2^32 - 1 or more.
fn class_columns(alloc: Global, n: usize) -> Result<BoxedSlice<Class>, Memory>
    ensures { IfOk result (λ classes. boxed_slice_len classes ≡ n + n) }
{
    if n >= u32::MAX as usize {
        return Err(Memory);
    }
    Ok(vec![in alloc; Class::BN; n + n]?.into_boxed_slice())
}

/// The buffers to resolve the sequences of a paragraph (W1 to I2): its classes before W1 and after these a copy of them
/// to work on, and its bracket pairs. Contracts see the capacity in positions, and the two columns of classes.
#[derive(Drop)]
pub struct RoomToResolve {
    pub classes: BoxedSlice<Class>,
    pub pairs: Pairs,
}

impl Model for RoomToResolve {
    ghost Value = { Work };

    ghost view = { λ r. record {
      room = length r.pairs;
      before = take (length r.pairs) (boxed_slice_items r.classes);
      classes =
          drop (length r.pairs) (boxed_slice_items r.classes);
    } };

    ghost invariant = { λ r. boxed_slice_len r.classes ≡ length r.pairs + length r.pairs };
}

impl RoomToResolve {
    /// Makes the buffers for `n` positions.
    pub fn with_room(alloc: Global, n: usize) -> Result<RoomToResolve, Memory>
        ensures { IfOk result (λ made. made.room ≡ n) }
    {
        Ok(RoomToResolve {
            classes: class_columns(alloc, n)?,
            pairs: Pairs::with_room(alloc, n)?,
        })
    }
}
