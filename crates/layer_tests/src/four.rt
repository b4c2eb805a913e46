// Windows over four vertices in two chunks.
ghost use Rattle.std.specs.Prelude.{◌≡◌, IfOk, IfSome};

use partition::Parts;
use programs::Components;
use std::alloc::Global;
use windows::{WindowFault, Windows};

/// Windows of `components` over four vertices in two chunks, under this budget.
pub fn windows_of(alloc: Global, budget: u64) -> Option<Result<Windows<Components>, WindowFault>>
    ensures cut { IfSome result (λ made. IfOk made (λ windows. windows.cut ≡ record { vertices = 4; parts = 2 })) }
    ensures budget { IfSome result (λ made. IfOk made (λ windows. windows.budget ≡ budget)) }
{
    let Ok(parts) = Parts::new(4, 2) else {
        return None;
    };
    Some(Windows::new(alloc, &Components, parts, budget))
}
