//! The laws of reading. Each function does nothing: its contract is the law.
ghost use Rattle.std.specs.Prelude.{◌≡◌, List, ℕ, Option, Some};
ghost use Rattle.dist_model.specs.Items.{Item};
ghost use Rattle.item_texts.specs.Reading.{IsRead, read_of};
ghost use Rattle.item_texts.specs.declared.reading.ReadItem.{ReadItem};
ghost use Rattle.node_frames.specs.Frames.{IsSpelled, bytes_of};

use erl_control::one_frame;

/// Proves that bytes are read in one way, and those of an item that is sent as that item.
pub fn one_item()
    ensures once { (bytes : List ℕ) (one other : Option ReadItem) → IsRead bytes one → IsRead bytes other → one ≡ other }
    ensures sent { (item : Item) → IsSpelled item → IsRead (bytes_of item) (Some (read_of item)) }
{
    one_frame();
}
