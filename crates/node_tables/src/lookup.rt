//! The place of a process among those of an incarnation.
ghost use Rattle.std.specs.Prelude.{◌≡◌, ◌&&◌, ◌==◌, ◌<◌, None, IfSome, length};
ghost use Rattle.std.specs.List.{slice_get};
ghost use Rattle.std.specs.Option.{option_copied};
ghost use Rattle.dist_model.specs.Names.{same_name};
ghost use Rattle.node_tables.specs.Lives.{is_own, life_in, pid_at};

use crate::life::Life;
use erl_names::Mint;
use erl_term::{Atom, Pid};

/// Whether two names are the same.
#[tactic(auto, using(crate::proofs::Texts::same_text))]
pub(crate) fn same_name(a: &Atom, b: &Atom) -> bool
    ensures { result ≡ same_name a.now b.now }
{
    a == b
}

fn is_of(creation: u32, process: &Pid) -> bool
    ensures { result ≡ (process.now.creation == creation && process.now.serial == 0) }
{
    process.creation == creation && process.serial == 0
}

/// Whether the pid is of this incarnation.
pub(crate) fn is_own(mint: &Mint, process: &Pid) -> bool
    ensures { result ≡ is_own mint.now process.now }
{
    same_name(&process.node, mint.name().atom()) && is_of(mint.creation().number(), process)
}

/// What there is of a process.
pub(crate) fn life_in<'a>(mint: &Mint, lives: &'a [Life], process: &Pid) -> Option<&'a Life>
    ensures { option_copied result ≡ life_in mint.now lives.now process.now }
{
    if !is_own(mint, process) || process.id == 0 {
        return None;
    }
    lives.get(process.id as usize - 1)
}

/// The place of a process, if there is one.
pub(crate) fn place_in(mint: &Mint, lives: &[Life], process: &Pid) -> Option<usize>
    ensures none { result ≡ None → life_in mint.now lives.now process.now ≡ None }
    ensures within { IfSome result (λ place. place < length lives.now) }
    ensures life { IfSome result (λ place. slice_get lives.now place ≡ life_in mint.now lives.now process.now) }
    ensures pid { IfSome result (λ place. pid_at mint.now place ≡ process.now) }
{
    if !is_own(mint, process) || process.id == 0 {
        return None;
    }
    let place = process.id as usize - 1;
    if place < lives.len() {
        Some(place)
    } else {
        None
    }
}
