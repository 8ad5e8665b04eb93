//! A process is added to those of an incarnation.
ghost use Rattle.std.specs.Prelude.{◌≡◌, ◌<◌, ◌-◌, ◌^◌, ◌+◌, [], false, length};
ghost use Rattle.std.specs.FinMap as fm;
ghost use Rattle.std.specs.Vec.{vec_capacity, vec_len};
ghost use Rattle.dist_model.specs.Node as model;
ghost use Rattle.erl_names.specs.Draw as draw;
ghost use Rattle.erl_names.specs.Ids.{pid_of};
ghost use Rattle.erl_names.specs.Minted.{drawn};
ghost use Rattle.node_tables.specs.Lives.{ends_in, lives_in};

use crate::life::Life;
use erl_names::Mint;
use exit_core::Proc;
use link_core::Ends;
use std::alloc::Global;

pub(crate) fn add(alloc: Global, mint: &mut Mint, held: &mut Vec<Life>)
    requires room { vec_len held.old < vec_capacity held.old }
    requires ids { mint.old.pids < 2 ^ 32 - 1 }
    requires spawned { length held.old.items ≡ mint.old.pids }
    ensures mint { mint.new ≡ drawn mint.old draw.Pid }
    ensures lives { lives_in mint.new held.new.items ≡ fm.insert (lives_in mint.old held.old.items) (pid_of mint.old (mint.old.pids + 1)) (model.Living false []) }
    ensures ends { ends_in mint.new held.new.items ≡ ends_in mint.old held.old.items }
    ensures spawned { length held.new.items ≡ mint.new.pids }
{
    let life = Life::Living {
        process: Proc::new(alloc),
        ends: Ends::new(alloc),
    };
    match mint.next_pid() {
        Ok(_) => {}
        Err(_) => unreachable!(),
    }
    match held.push(life) {
        Ok(()) => {}
        Err(_) => unreachable!(),
    }
}
