//! The variables that a block names.

ghost use Rattle.std.specs.Prelude.{◌≡◌, OnOk};
ghost use Rattle.stm_terms.specs.Typing.{kinds_in};
ghost use Rattle.stm_check.specs.CheckedBlock.{with_use};

use std::alloc::AllocFailed;
use stm_terms::kinds::Ty;

fn kind_in(uses: &[(u32, Ty)], id: u32) -> Option<Ty>
    ensures { result ≡ kinds_in uses.now id }
{
    for (other, kind) in uses {
        if *other == id {
            return Some(*kind);
        }
    }
    None
}

/// Adds a variable after those that were named before it, unless it is one of them.
pub fn record_use(
    uses: &mut Vec<(u32, Ty)>,
    id: u32,
    kind: Ty,
) -> Result<(), AllocFailed<(u32, Ty)>>
    ensures { OnOk result (uses.new.items ≡ with_use id kind uses.old.items) }
{
    if kind_in(uses, id).is_none() {
        uses.push((id, kind))?;
    }
    Ok(())
}
