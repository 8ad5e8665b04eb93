//! What merging rests on. The function does nothing: its contract is the law.
ghost use Rattle.std.specs.Prelude.{◌≡◌};
ghost use Rattle.dist_model.specs.Items.{Item};
ghost use Rattle.node_frames.specs.Frames.{IsSpelled, bytes_of};

/// The bytes of an item that travels tell the item: no two, be they messages of the handshake, signals or
/// ticks, are written alike.
pub(crate) fn bytes_tell_items()
    ensures { (x y : Item) → IsSpelled x → IsSpelled y → bytes_of x ≡ bytes_of y → x ≡ y }
{
    erl_control::one_frame();
}
