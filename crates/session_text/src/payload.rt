//! The counted octets of a session's input.
ghost use Rattle.std.specs.Prelude.{◌≡◌, ⊤, false, true, ◌≤◌, [], None, IfSome, length};
ghost use Rattle.std.specs.Option.{option_map};
ghost use Rattle.devices.specs.Devices.{HasRisen};
ghost use Rattle.session_text.specs.view.Input.{unused, fuel, Knows, Reads};
ghost use Rattle.session_text.specs.view.Payload.{BreaksOff, MatchTaken, Grows, Takes, FallsShort, octets_kept};

use crate::input::{Filled, Input};
use devices::Source;
use std::alloc::Global;

/// How taking octets went.
#[derive(Drop)]
pub enum Taken {
    /// All octets came. They are kept where that was asked for and there was memory.
    Whole { kept: Option<Vec<u8>> },
    /// The input ended before all octets came.
    Truncated,
    /// The input can't be read.
    Failed,
    /// No more reads may be made.
    Spent,
}

/// The kept octets with more, or none when out of memory.
fn with_more(kept: Option<Vec<u8>>, octets: &[u8]) -> Option<Vec<u8>>
    ensures more { Grows (option_map octets_kept kept) (option_map octets_kept result) octets.now }
    ensures none { kept ≡ None → result ≡ None }
{
    let mut kept = kept?;
    match kept.extend_from_slice(octets) {
        Ok(()) => Some(kept),
        Err(_) => None,
    }
}

/// A vector for the octets, where they are to be kept. There is none when out of memory.
fn room_for(alloc: Global, count: usize, keep: bool) -> Option<Vec<u8>>
    ensures empty { IfSome result (λ kept. kept.items ≡ []) }
    ensures none { keep ≡ false → result ≡ None }
{
    if keep {
        Vec::with_capacity(alloc, count).ok()
    } else {
        None
    }
}

/// Uses the next `count` octets of the input, and keeps a copy of them where `keep` is true. When
/// out of memory for the copy, it uses the octets all the same, and keeps none. Nothing is read
/// where all of them are read already, nor after the end of the input.
#[tactic(auto, using(crate::proofs::Taking::taking, crate::proofs::Reading::reading))]
pub fn take_octets<R: Source>(
    alloc: Global,
    input: &mut Input,
    reader: &mut R,
    count: usize,
    keep: bool,
) -> Taken
    requires known { Knows input.old (R.remaining reader.old) }
    ensures known { Knows input.new (R.remaining reader.new) }
    ensures fuel { fuel input.new ≤ fuel input.old }
    ensures taken { MatchTaken result
        (λ kept. Takes count (unused input.old (R.remaining reader.old))
        (unused input.new (R.remaining reader.new)) (option_map octets_kept kept))
        (FallsShort count (unused input.old (R.remaining reader.old)) (R.remaining reader.new))
        (BreaksOff count (unused input.old (R.remaining reader.old)) (R.remaining reader.new)
        × (input.new.ended ≡ false) × HasRisen (R.fault_count reader.old)
        (R.fault_count reader.new)) (BreaksOff count (unused input.old (R.remaining reader.old))
        (R.remaining reader.new) × (input.new.ended ≡ false) × (input.new.turns ≡ 0)) }
    ensures unkept { keep ≡ false → MatchTaken result (λ kept. kept ≡ None) ⊤ ⊤ ⊤ }
    ensures reads { Reads R.remaining R.fault_count R.call_count input.old input.new reader.old
        reader.new }
    ensures still { count ≤ length input.old.pending → (input.new.turns ≡ input.old.turns)
        × (input.new.ended ≡ input.old.ended) × (reader.new ≡ reader.old) }
    ensures past_end { input.old.ended ≡ true → (input.new.turns ≡ input.old.turns)
        × (input.new.ended ≡ true) × (reader.new ≡ reader.old) }
{
    let mut kept = room_for(alloc, count, keep);
    let mut left = count;
    while left > 0 {
        match input.refresh(reader) {
            Filled::More => {}
            Filled::Ended => return Taken::Truncated,
            Filled::Failed => return Taken::Failed,
            Filled::Spent => return Taken::Spent,
        }
        let pending = input.pending();
        let part = pending.len().min(left);
        let (front, _) = pending.split_at(part);
        kept = with_more(kept, front);
        input.consume(part);
        left -= part;
    }
    Taken::Whole { kept }
}
