//! The node a@h, and a side by itself, in a state.
use crate::due::Due;
use crate::states::{Dialed, State, Step, WORD};
use conn_core::{Arrival, Side, SideState, Standing, Taken};
use dist_model::{Answer, Command};
use erl_handshake::{Cookie, Flags, Identity, Introduction, Profile, Setup};
use erl_names::{Creation, NodeName, TrunkId};
use erl_term::{Atom, Pid, Refusal};
use link_core::End;
use node_core::{Arrived, Node};
use node_tables::Life;
use std::alloc::Global;

/// The cookie of both nodes.
const SECRET: &[u8] = b"1234567890123456789012345678901234567890123456789012345678901234567890";

/// The pids and the connections of the tests.
#[derive(Drop)]
struct Names {
    p: Pid,
    b: Pid,
    peer: NodeName,
    here: TrunkId,
    there: TrunkId,
}

/// All that the readers of a node tell.
#[derive(Clone, Copy, Debug, PartialEq, Eq)]
struct View {
    creation: u32,
    spawned: u32,
    has_local: bool,
    lives: bool,
    messages: usize,
    end: End,
    here: Option<(SideState, Option<Introduction>)>,
    there: Option<(SideState, Option<Introduction>)>,
}

/// A state that was reached.
#[derive(Drop)]
pub struct Machine {
    state: State,
    names: Names,
    own: Identity,
    side: Side,
    node: Node,
}

fn name(alloc: Global, text: &str) -> Result<NodeName, Refusal> {
    NodeName::read(alloc, text)
}

fn cookie(alloc: Global) -> Result<Cookie, Refusal> {
    Ok(Cookie::new(Vec::from_slice(alloc, SECRET)?))
}

fn atom(alloc: Global, text: &str) -> Result<Atom, Refusal> {
    if !Atom::fits(text) {
        return Err(Refusal::BadName);
    }
    Ok(Atom::new(String::from_str(alloc, text)?)?)
}

fn pid(alloc: Global, node: &str) -> Result<Pid, Refusal> {
    Ok(Pid {
        node: atom(alloc, node)?,
        creation: 1,
        id: 1,
        serial: 0,
    })
}

fn trunk(alloc: Global, dialer: &str) -> Result<TrunkId, Refusal> {
    Ok(TrunkId {
        dialer: name(alloc, dialer)?,
        count: 1,
    })
}

impl Names {
    fn new(alloc: Global) -> Result<Names, Refusal> {
        Ok(Names {
            p: pid(alloc, "a@h")?,
            b: pid(alloc, "b@h")?,
            peer: name(alloc, "b@h")?,
            here: trunk(alloc, "a@h")?,
            there: trunk(alloc, "b@h")?,
        })
    }

    fn trunk(&self, dialed: Dialed) -> &TrunkId {
        match dialed {
            Dialed::Here => &self.here,
            Dialed::There => &self.there,
        }
    }

    // The command of P towards B.
    fn command(&self, step: Step) -> Result<Command, Refusal> {
        let from = self.p.clone()?;
        let to = self.b.clone()?;
        Ok(match step {
            Step::Links => Command::Link { from, to },
            Step::Unlinks => Command::Unlink { from, to },
            _ => Command::Monitor {
                owner: from,
                target: to,
            },
        })
    }
}

// A step happens.
fn go(alloc: Global, names: &Names, node: &mut Node, step: Step) -> Result<(), Refusal> {
    let report = match step {
        Step::Spawns => node.call(alloc, Command::Spawn)?,
        Step::Dials => node.dial(alloc, true, &names.peer, WORD)?,
        Step::Hears(dialed, bytes) => {
            node.arrive(alloc, names.trunk(dialed), bytes, WORD)?.report
        }
        Step::Loses(dialed) => node.lose(alloc, names.trunk(dialed))?,
        _ => node.call(alloc, names.command(step)?)?,
    };
    drop(report);
    Ok(())
}

fn node_in(alloc: Global, names: &Names, state: State) -> Result<Node, Refusal> {
    let setup = Setup {
        cookie: cookie(alloc)?,
        profile: Profile::One,
    };
    let mut node = Node::new(alloc, name(alloc, "a@h")?, setup)?;
    for part in state.steps {
        for step in *part {
            go(alloc, names, &mut node, *step)?;
        }
    }
    Ok(node)
}

fn side_of(node: &Node, trunk: &TrunkId) -> Option<(SideState, Option<Introduction>)> {
    match node.side(trunk) {
        Some(side) => Some((side.standing.state(), side.standing.introduction())),
        None => None,
    }
}

fn messages(life: Option<&Life>) -> usize {
    match life {
        Some(Life::Living { process, .. }) => process.mailbox.len(),
        _ => 0,
    }
}

fn is_broken(was: &Taken, number: u8) -> bool {
    match was {
        Taken::Broken(fault) => fault.number() == number,
        _ => false,
    }
}

fn is_taken(was: &Taken) -> bool {
    !matches!(was, Taken::Broken(_))
}

// The outcome of bytes at the side is this one.
fn comes_to(arrival: &Arrival, before: Standing, due: Due) -> bool {
    match due {
        Due::Deaf | Due::Asks => false,
        Due::Takes(state) => is_taken(&arrival.was) && arrival.standing.state() == state,
        Due::Forged => is_taken(&arrival.was) && arrival.standing == before,
        Due::Breaks(number) => {
            is_broken(&arrival.was, number) && arrival.standing == before.lost()
        }
    }
}

fn is_fault(answer: &Answer, number: u8) -> bool {
    match answer {
        Answer::Broken(fault) => fault.number() == number,
        _ => false,
    }
}

impl Machine {
    /// Reaches a state.
    ///
    /// # Errors
    /// A refusal of an event on the way, [`Refusal::OutOfMemory`] among them.
    pub fn new(alloc: Global, state: State) -> Result<Machine, Refusal> {
        let names = Names::new(alloc)?;
        let own = Identity {
            name: name(alloc, "a@h")?,
            creation: Creation::first(),
            flags: Flags::mandatory(),
            cookie: cookie(alloc)?,
        };
        let side = Side {
            trunk: names.trunk(state.dialed).clone()?,
            peer: name(alloc, "b@h")?,
            standing: state.standing,
        };
        let node = node_in(alloc, &names, state)?;
        Ok(Machine {
            state,
            names,
            own,
            side,
            node,
        })
    }

    /// Returns if the side and the node stand in the state.
    pub fn stands(&self) -> bool {
        let standing = self.state.standing;
        match self.node.side(self.names.trunk(self.state.dialed)) {
            Some(side) => side.standing == standing,
            None => standing.state() == SideState::Fresh,
        }
    }

    fn view(&self) -> View {
        let life = self.node.life(&self.names.p);
        View {
            creation: self.node.creation(),
            spawned: self.node.spawned(),
            has_local: self.node.has_local(),
            lives: self.node.is_living(&self.names.p),
            messages: messages(life),
            end: self.node.end(&self.names.p, &self.names.b),
            here: side_of(&self.node, &self.names.here),
            there: side_of(&self.node, &self.names.there),
        }
    }

    // The view after the side of the state has broken.
    fn broken(&self, before: View) -> View {
        let lost = self.state.standing.lost();
        let side = Some((lost.state(), lost.introduction()));
        match self.state.dialed {
            Dialed::Here => View {
                here: side,
                ..before
            },
            Dialed::There => View {
                there: side,
                ..before
            },
        }
    }

    /// Returns if bytes at the side by itself have the due outcome.
    ///
    /// # Errors
    /// [`Refusal::OutOfMemory`].
    pub fn side_does(&self, alloc: Global, bytes: &[u8], due: Due) -> Result<bool, Refusal> {
        match self.side.judge(alloc, &self.own, bytes, WORD) {
            Ok(None) => Ok(due == Due::Asks),
            Ok(Some(arrival)) => {
                let is_right = comes_to(&arrival, self.state.standing, due);
                drop(arrival);
                Ok(is_right)
            }
            Err(Refusal::NotLive) => Ok(due == Due::Deaf),
            Err(e) => Err(e),
        }
    }

    // The state of the side at the node, after it has taken an item.
    fn standing_at_node(&self, state: SideState) -> SideState {
        if state == SideState::Fresh {
            self.state.admitted
        } else {
            state
        }
    }

    // The node's answer, and its view after it, are due.
    fn is_due(&self, arrived: &Arrived, before: View, due: Due) -> bool {
        match due {
            Due::Deaf | Due::Asks => false,
            Due::Takes(state) => {
                let side = side_of(&self.node, self.names.trunk(self.state.dialed));
                matches!(&arrived.report.answer, Answer::Took(_))
                    && side.map(|side| side.0) == Some(self.standing_at_node(state))
            }
            Due::Forged => {
                is_fault(&arrived.report.answer, 20) && self.view() == self.broken(before)
            }
            Due::Breaks(number) => {
                is_fault(&arrived.report.answer, number) && self.view() == self.broken(before)
            }
        }
    }

    // A node without a side of the connection answers NotLive until the first message is whole.
    fn refusal_due(&self, due: Due) -> Option<Refusal> {
        match due {
            Due::Deaf => Some(Refusal::NotLive),
            Due::Asks if self.state.standing.state() == SideState::Fresh => Some(Refusal::NotLive),
            Due::Asks => Some(Refusal::NothingThere),
            _ => None,
        }
    }

    /// Returns if bytes at the node have the due outcome. A node that was changed is made anew.
    ///
    /// # Errors
    /// [`Refusal::OutOfMemory`].
    pub fn node_does(&mut self, alloc: Global, bytes: &[u8], due: Due) -> Result<bool, Refusal> {
        let before = self.view();
        let trunk = self.names.trunk(self.state.dialed);
        match self.node.arrive(alloc, trunk, bytes, WORD) {
            Ok(arrived) => {
                let is_right = self.is_due(&arrived, before, due);
                drop(arrived);
                self.node = node_in(alloc, &self.names, self.state)?;
                Ok(is_right)
            }
            Err(Refusal::OutOfMemory) => Err(Refusal::OutOfMemory),
            Err(why) => Ok(self.refusal_due(due) == Some(why) && self.view() == before),
        }
    }
}
