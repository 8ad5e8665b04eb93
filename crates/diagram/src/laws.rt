//! What holds of the arrows, the lines and the rows of every diagram.
ghost use Rattle.std.specs.Prelude.{◌≡◌, ◌+◌, ◌<◌, ◌≤◌, ℕ, List, All, Some, true, map, length, is_some};
ghost use Rattle.std.specs.List.{slice_get, slice_index};
ghost use Rattle.diagram.specs.Arrows.{arrows_of, pairs};
ghost use Rattle.diagram.specs.Claims.{GoesDown, IsFed, giving_up, sends, start_of, takes};
ghost use Rattle.diagram.specs.Lines.{height_of, lane_of, lines_of, tops_of};
ghost use Rattle.diagram.specs.Queues.{nothing};
ghost use Rattle.diagram.specs.declared.rows.Mark.{Mark as TheMark};
ghost use Rattle.diagram.specs.declared.rows.Row.{Row as TheRow};

/// Each item that is sent has exactly one arrow: the arrows of a queue begin at the marks that send on it,
/// each at one, in their order.
pub fn each_item_has_one_arrow()
    ensures { (queue : ℕ) (rows : List TheRow) → map start_of (arrows_of queue rows) ≡ sends queue 0 rows }
{}

/// No arrow goes up, and none ends outside of the rows: an item is taken in a later row than the one that
/// sent it.
pub fn no_arrow_goes_up()
    ensures { (queue : ℕ) (rows : List TheRow) → All (GoesDown (length rows)) (arrows_of queue rows) }
{}

/// Where each row that takes from a queue finds an item on its way, the first item has its arrow to the first
/// of these rows, the second to the second, and so on.
pub fn first_sent_is_first_taken()
    ensures { (queue : ℕ) (rows : List TheRow) → IsFed queue 0 rows nothing →
        arrows_of queue rows ≡ pairs (giving_up queue 0 rows) (sends queue 0 rows) (takes queue 0 rows) }
{}

/// Rows don't overlap, and the marks of a row stand within it, those of a lane below one another, and
/// below the end of an arrow.
pub fn nothing_overlaps()
    ensures rows { (rows : List TheRow) (i : ℕ) (row : TheRow) → slice_get rows i ≡ Some row →
        slice_index (tops_of rows) (i + 1) ≡ slice_index (tops_of rows) i + height_of row }
    ensures high { (row : TheRow) → 0 < height_of row }
    ensures words { (row : TheRow) → length row.words.items ≤ height_of row }
    ensures within { (row : TheRow) → All (λ line. line < height_of row) (lines_of row) }
    ensures below_the_end { (row : TheRow) → is_some row.took ≡ true → All (λ line. 0 < line) (lines_of row) }
    ensures apart { (row : TheRow) (i j : ℕ) (one other : TheMark) → i < j →
        slice_get row.marks.items i ≡ Some one → slice_get row.marks.items j ≡ Some other → lane_of one ≡ lane_of other →
        slice_index (lines_of row) i < slice_index (lines_of row) j }
{}
