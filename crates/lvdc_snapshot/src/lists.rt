//! The lists of a snapshot.

ghost use Rattle.std.specs.Prelude.{◌≡◌, ◌+◌, ◌≤◌, [], IfOk, vec_len, vec_capacity};

use lvdc_model::Repair;
use lvdc_plain::Exchange;
use lvdc_word::{NoMemory, Seq};
use std::alloc::Global;

/// A list once more.
pub(crate) fn once_more<T: Copy>(alloc: Global, list: &[T]) -> Result<Seq<T>, NoMemory>
    ensures { IfOk result (λ copy. copy ≡ list.now) }
{
    let items = Vec::from_slice(alloc, list)?;
    Ok(Seq::from_vec(items))
}

/// The items of a list, and room for so many more.
pub(crate) fn with_room<T: Drop>(list: Seq<T>, more: u64) -> Result<Vec<T>, NoMemory>
    ensures items { IfOk result (λ made. made.items ≡ list) }
    ensures room { IfOk result (λ made. vec_len made + more ≤ vec_capacity made) }
{
    let mut made = list.into_vec();
    made.reserve_exact(more as usize)?;
    Ok(made)
}

/// Room for so many port exchanges and so many repairs.
pub fn room_for(
    alloc: Global,
    exchanges: u64,
    repairs: u64,
) -> Result<(Vec<Exchange>, Vec<Repair>), NoMemory>
    ensures log { IfOk result (λ room. room.0.items ≡ []) }
    ensures log_room { IfOk result (λ room. exchanges ≤ vec_capacity room.0) }
    ensures repairs { IfOk result (λ room. room.1.items ≡ []) }
    ensures repairs_room { IfOk result (λ room. repairs ≤ vec_capacity room.1) }
{
    let log = Vec::with_capacity(alloc, exchanges as usize)?;
    let repairs = Vec::with_capacity(alloc, repairs as usize)?;
    Ok((log, repairs))
}
