//! One effect more.
ghost use Rattle.std.specs.Prelude.{◌≡◌, ◌++◌, [], ◌∷◌, OnOk};

use dist_model::Effect;
use node_frames::Frame;
use std::alloc::AllocError;

/// One more.
pub(crate) fn push(effects: &mut Vec<Effect<Frame>>, more: Effect<Frame>) -> Result<(), AllocError>
    ensures { OnOk result (effects.new.items ≡ effects.old.items ++ more ∷ []) }
{
    effects.push(more)?;
    Ok(())
}
