//! The law of a script that repeats a run.
ghost use Rattle.std.specs.Prelude.{List, ℕ};
ghost use Rattle.dist_books.specs.Acting.{Nodes};
ghost use Rattle.joined_books.specs.Joined.{AreARun};
ghost use Rattle.joined_books.specs.declared.trace.Placed.{Placed as ThePlaced};
ghost use Rattle.node_lock.specs.Seen.{BookSeen};
ghost use Rattle.script_repeats.specs.Ends.{EndsAlike};
ghost use Rattle.script_repeats.specs.Repeats.{Repeats};

/// Has no effect. Its contract is a law: a script that repeats a run ends in the world of that run, and its events have
/// the reports that the entries have.
pub fn scripts_end_as_their_runs()
    ensures { (seed : ℕ) (nodes : Nodes) (books : List BookSeen) (entries : List ThePlaced) (text : List ℕ)
        (run : AreARun nodes books entries) (script : Repeats seed nodes books entries text) → EndsAlike run script }
{}
