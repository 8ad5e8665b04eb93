//! What an event sends.
ghost use Rattle.std.specs.Prelude.{◌≡◌, ◌++◌, ◌∷◌, ◌≤◌, [], List, OnErr, OnOk, length, take};
ghost use Rattle.dist_model.specs.Names.{Name};
ghost use Rattle.erl_names.specs.declared.trunk.TrunkId.{TrunkId as TheTrunk};
ghost use Rattle.node_frames.specs.Frames.{Framed};
ghost use Rattle.world_core.specs.Lists.{at};
ghost use Rattle.node_core.specs.SentAt.{sent_at};

use crate::lists::Lists;
use dist_model::Effect;
use node_frames::Frame;
use std::alloc::{AllocError, Global};

impl Lists {
    // What one effect sends.
    fn send_one(&mut self, alloc: Global, effect: &Effect<Frame>) -> Result<(), AllocError>
        ensures ok { OnOk result ((t : TheTrunk) (x : Name) → at self.new t x ≡ at self.old t x ++ sent_at t x (effect.now ∷ [])) }
        ensures err { OnErr result ((t : TheTrunk) (x : Name) → at self.new t x ≡ at self.old t x) }
    {
        match effect {
            Effect::Sent {
                trunk: Some(trunk),
                peer,
                item,
            } => {
                let frame = item.copy(alloc)?;
                self.push(alloc, trunk, peer, frame)
            }
            _ => Ok(()),
        }
    }

    // It is taken back.
    fn take_one_back(&mut self, alloc: Global, effect: &Effect<Frame>)
        ensures { (rest : TheTrunk → Name → List Framed) →
            ((t : TheTrunk) (x : Name) → at self.old t x ≡ rest t x ++ sent_at t x (effect.now ∷ [])) →
            (t : TheTrunk) (x : Name) → at self.new t x ≡ rest t x }
    {
        match effect {
            Effect::Sent {
                trunk: Some(trunk),
                peer,
                ..
            } => self.drop_last(alloc, trunk, peer),
            _ => {}
        }
    }

    // Sends as long as there is memory, and answers of how many effects.
    fn send_some(&mut self, alloc: Global, effects: &[Effect<Frame>]) -> usize
        ensures some { result ≤ length effects.now }
        ensures sent { (t : TheTrunk) (x : Name) → at self.new t x ≡ at self.old t x ++ sent_at t x (take result effects.now) }
    {
        let mut sent = 0;
        while sent < effects.len() {
            if self.send_one(alloc, &effects[sent]).is_err() {
                return sent;
            }
            sent += 1;
        }
        sent
    }

    // All that was sent is taken back, the last first.
    fn take_back(&mut self, alloc: Global, effects: &[Effect<Frame>])
        ensures { (rest : TheTrunk → Name → List Framed) →
            ((t : TheTrunk) (x : Name) → at self.old t x ≡ rest t x ++ sent_at t x effects.now) →
            (t : TheTrunk) (x : Name) → at self.new t x ≡ rest t x }
    {
        let mut left = effects.len();
        while left > 0 {
            left -= 1;
            self.take_one_back(alloc, &effects[left]);
        }
    }

    /// All that an event has sent on connections comes behind what travels there already.
    ///
    /// # Errors
    /// Where there is no memory for it. Then what travels is as it was.
    pub fn send(&mut self, alloc: Global, effects: &[Effect<Frame>]) -> Result<(), AllocError>
        ensures ok { OnOk result ((t : TheTrunk) (x : Name) → at self.new t x ≡ at self.old t x ++ sent_at t x effects.now) }
        ensures err { OnErr result ((t : TheTrunk) (x : Name) → at self.new t x ≡ at self.old t x) }
    {
        let sent = self.send_some(alloc, effects);
        if sent == effects.len() {
            return Ok(());
        }
        self.take_back(alloc, &effects[..sent]);
        Err(AllocError)
    }
}
