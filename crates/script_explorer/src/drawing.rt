//! The drawing of an exploration: the scripts of its outcomes, side by side.
ghost use Rattle.std.specs.Prelude.{◌≡◌, ◌∷◌, ◌++◌, [], IfOk, List, OnOk, Option, is_some, length, map, string_bytes, ℕ};
ghost use Rattle.script_explorer.specs.Drawn.{IsDocumentOf, IsDrawn, heading_in, shown_heading, unmet_heading, unmet_headings};
ghost use Rattle.script_explorer.specs.Printed.{AreNumbered, Shown, Unmet};
ghost use Rattle.script_session.specs.Session.{fresh_state};
ghost use Rattle.script_session.specs.Stands.{IsSession};

use crate::common::common_lines;
use crate::explored::{Explored, exploration_of, summary};
use crate::headings::{heading_of, heading_of_unmet};
use crate::paths::{OutcomeScript, Scripts, UnmetScript};
use crate::plan::Plan;
use crate::replaying::{replies, run_through, run_to_unmet};
use crate::search::Exploration;
use crate::state::Halt;
use crate::texts::{Heading, put_count};
use diagram_svg::{Panel, put_panels};
use run_diagrams::LineRange;
use run_traces::Trace;
use script_session::Session;
use std::alloc::{AllocError, Global};

/// The title of a drawing.
const TITLE: &str = "The outcomes of a script";

// Returns a session before its first line, which draws the events of some lines.
fn drawing_session(alloc: Global, seed: u32, lines: LineRange) -> Result<Session, AllocError>
    ensures { IfOk result (λ session. IsSession session (fresh_state Trace.Off seed)) }
{
    let mut session = Session::new(alloc, Trace::Off, seed);
    session.draw_picture(alloc, lines)?;
    Ok(session)
}

// Returns the drawing of an outcome's script, under its number and the replies to the questions.
fn draw_outcome(
    alloc: Global,
    seed: u32,
    lines: LineRange,
    heading: &Heading,
    script: &[Vec<u8>],
) -> Result<Panel, Halt>
    ensures { IfOk result (λ panel. (shown : Shown seed) × (shown.number ≡ heading.now.number) × (shown.all ≡ heading.now.all) × (map string_bytes panel.heading.items ≡ shown_heading shown)) }
{
    let session = drawing_session(alloc, seed, lines)?;
    let mut replayed = run_through(alloc, session, script)?;
    let words = heading_of(alloc, heading, replies(&replayed, heading.questions))?;
    let diagram = replayed.session.picture(alloc)?;
    Ok(Panel {
        heading: words,
        diagram,
    })
}

// Returns the drawing of a script whose last line expects another reply, under both lines. Puts these behind
// `advice` too.
fn draw_unmet(
    alloc: Global,
    seed: u32,
    lines: LineRange,
    script: &UnmetScript,
    advice: &mut String,
) -> Result<Panel, Halt>
    ensures { IfOk result (λ panel. (unmet : Unmet seed) × (map string_bytes panel.heading.items ≡ unmet_heading unmet.number unmet.advice)) }
{
    let session = drawing_session(alloc, seed, lines)?;
    let mut ended = run_to_unmet(alloc, session, &script.lines, advice)?;
    let heading = heading_of_unmet(alloc, script.number, advice.as_str())?;
    let diagram = ended.picture(alloc)?;
    Ok(Panel { heading, diagram })
}

// Returns the drawings of the outcomes' scripts, in their order.
fn draw_outcomes(
    alloc: Global,
    seed: u32,
    lines: LineRange,
    scripts: &[OutcomeScript],
    questions: usize,
) -> Result<Vec<Panel>, Halt>
    ensures { IfOk result (λ panels. (shown : List (Shown seed)) × (length shown ≡ length scripts.now) × AreNumbered 1 (length scripts.now) shown × (map heading_in panels.items ≡ map shown_heading shown)) }
{
    let mut panels = Vec::new(alloc);
    for (place, script) in scripts.iter().enumerate() {
        let heading = Heading {
            number: place as u64 + 1,
            all: scripts.len() as u64,
            states: script.states,
            questions,
        };
        let panel = draw_outcome(alloc, seed, lines, &heading, &script.lines)?;
        push_panel(&mut panels, panel)?;
    }
    Ok(panels)
}

// Appends a panel.
fn push_panel(panels: &mut Vec<Panel>, panel: Panel) -> Result<(), AllocError>
    ensures { OnOk result (panels.new.items ≡ panels.old.items ++ panel ∷ []) }
{
    panels.push(panel)?;
    Ok(())
}

// Appends the drawing of the script that ends with an expectation that isn't met, if there is one. Returns the
// number of that line.
fn add_unmet(
    alloc: Global,
    panels: &mut Vec<Panel>,
    seed: u32,
    lines: LineRange,
    script: &Option<UnmetScript>,
    advice: &mut String,
) -> Result<Option<u64>, Halt>
    ensures { IfOk result (λ number. (unmet : Option (Unmet seed)) × (map heading_in panels.new.items ≡ map heading_in panels.old.items ++ unmet_headings unmet) × (is_some unmet ≡ is_some number)) }
{
    let Some(script) = script else {
        return Ok(None);
    };
    let panel = draw_unmet(alloc, seed, lines, script, advice)?;
    push_panel(panels, panel)?;
    Ok(Some(script.number))
}

// Returns the lines of each script but the first.
fn others(alloc: Global, scripts: &Scripts) -> Result<Vec<&[Vec<u8>]>, AllocError> {
    let mut others: Vec<&[Vec<u8>]> = Vec::new(alloc);
    for script in scripts.outcomes.iter().skip(1) {
        others.push(&script.lines)?;
    }
    if let Some(script) = &scripts.unmet {
        others.push(&script.lines)?;
    }
    Ok(others)
}

// Returns the number of the first lines of each script that aren't drawn: those that all scripts have in common,
// or of one script alone those before its blocks.
fn hidden_lines(alloc: Global, plan: &Plan<'_>, scripts: &Scripts) -> Result<usize, AllocError> {
    let others = others(alloc, scripts)?;
    match scripts.outcomes.first() {
        Some(first) if !others.is_empty() => Ok(common_lines(&first.lines, &others)),
        _ => Ok(plan.beginning.len()),
    }
}

// Returns the words above all drawings: the numbers of states and outcomes, and that of the lines that aren't
// drawn.
fn caption(alloc: Global, summary: String, hidden: u64) -> Result<Vec<String>, AllocError>
    ensures { IfOk result (λ lines. (more : List (List ℕ)) × (map string_bytes lines.items ≡ string_bytes summary ∷ more)) }
{
    let mut lines = Vec::new(alloc);
    lines.push(summary)?;
    if hidden == 0 {
        return Ok(lines);
    }
    let mut text = String::from_str(alloc, "not drawn, since all scripts begin with them: ")?;
    put_count(&mut text, hidden, "line")?;
    lines.push(text)?;
    Ok(lines)
}

// Returns one drawing of panels, under the lines of a caption.
fn document_of(alloc: Global, caption: &[String], panels: &[Panel]) -> Result<Vec<u8>, AllocError>
    ensures { IfOk result (λ text. IsDocumentOf (map string_bytes caption.now) panels.now text.items) }
{
    let mut out = String::new(alloc);
    put_panels(alloc, &mut out, TITLE, caption, panels)?;
    Ok(out.into_bytes())
}

// Returns the drawing of all scripts, with these lines of each. So many lines before them aren't drawn.
fn drawing_of(
    alloc: Global,
    seed: u32,
    lines: LineRange,
    hidden: u64,
    found: &Exploration<'_, '_>,
    scripts: &Scripts,
    advice: &mut String,
) -> Result<Explored, Halt>
    ensures { IfOk result (λ explored. IsDrawn seed explored) }
{
    let Scripts { outcomes, unmet } = scripts;
    let summary = summary(alloc, found, outcomes.len())?;
    let caption = caption(alloc, summary, hidden)?;
    let questions = found.plan().questions.len();
    let mut panels = draw_outcomes(alloc, seed, lines, outcomes, questions)?;
    let unmet = add_unmet(alloc, &mut panels, seed, lines, unmet, advice)?;
    let text = document_of(alloc, &caption, &panels)?;
    Ok(Explored { text, unmet })
}

/// Explores a plan, up to `most` steps behind its beginning, and returns a drawing of the scripts of all outcomes,
/// side by side, each under the replies that it prints. The last drawing is that of the script that ends with an
/// expectation that isn't met, if there is one. Of each script these lines are drawn, or those from the first on in
/// which the scripts differ. `seed` is the first challenge of the handshakes. Puts the fault of a line that is a bad
/// one, or that expects another reply, behind `advice`.
///
/// # Errors
/// As of [`explore`](crate::explore).
pub fn draw(
    alloc: Global,
    plan: &Plan<'_>,
    seed: u32,
    most: u64,
    lines: Option<LineRange>,
    advice: &mut String,
) -> Result<Explored, Halt>
    ensures { IfOk result (λ explored. IsDrawn seed explored) }
{
    let found = exploration_of(alloc, plan, seed, most, advice)?;
    let scripts = found.scripts(alloc)?;
    let hidden = match lines {
        Some(_) => 0,
        None => hidden_lines(alloc, plan, &scripts)? as u64,
    };
    let lines = lines.unwrap_or(LineRange {
        first: hidden.saturating_add(1),
        last: u64::MAX,
    });
    drawing_of(alloc, seed, lines, hidden, &found, &scripts, advice)
}
