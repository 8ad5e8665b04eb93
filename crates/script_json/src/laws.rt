//! The laws of lines. Each function does nothing: its contract is the law.
ghost use Rattle.std.specs.Prelude.{◌≡◌, List, ℕ, Option, Result};
ghost use Rattle.dist_model.specs.Items.{Item};
ghost use Rattle.dist_model.specs.declared.report.Effect.{Effect};
ghost use Rattle.dist_model.specs.declared.report.Report.{Report};
ghost use Rattle.erl_names.specs.declared.trunk.TrunkId.{TrunkId};
ghost use Rattle.erl_term.specs.declared.refusal.Refusal.{Refusal};
ghost use Rattle.item_texts.specs.Reading.{read_of};
ghost use Rattle.node_core.specs.declared.node_event.NodeEvent.{NodeEvent};
ghost use Rattle.node_frames.specs.Frames.{Framed, IsSpelled, bytes_of, framed};
ghost use Rattle.script_json.specs.Fields.{fields_data};
ghost use Rattle.script_json.specs.Reports.{IsEffectData, IsLineText, sent_data};
ghost use Rattle.serde_json.specs.Data.{Data};

use item_texts::one_item;

/// Proves that the line of an event has one text: bytes are read in one way.
pub fn one_text()
    ensures { (node : List ℕ) (line : ℕ) (event : NodeEvent) (came : Result (Report Framed) Refusal) (one other : List ℕ) →
        IsLineText node line event came one → IsLineText node line event came other → one ≡ other }
{
    one_item();
}

/// Proves that the object of an item that is sent has the fields of this item.
pub fn items_have_fields()
    ensures { (trunk : Option TrunkId) (peer : List ℕ) (item : Item) (told : Data) → IsSpelled item →
        IsEffectData (Effect.Sent trunk peer (framed item)) told → told ≡ sent_data trunk peer (bytes_of item) (fields_data (read_of item)) }
{
    one_item();
}
