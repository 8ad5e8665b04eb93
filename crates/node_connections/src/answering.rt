//! What an event answers.
ghost use Rattle.std.specs.Prelude.{◌≡◌};
ghost use Rattle.dist_model.specs.Items.{Handshake, kind_of};

use dist_model::Kind;
use erl_handshake::ShakeMsg;

/// What a message of the handshake is.
pub(crate) fn kind(message: &ShakeMsg) -> Kind
    ensures { result ≡ kind_of (Handshake message.now) }
{
    match message {
        ShakeMsg::SendName { .. } => Kind::SendName,
        ShakeMsg::Status(_) => Kind::Status,
        ShakeMsg::Challenge { .. } => Kind::Challenge,
        ShakeMsg::ChallengeReply { .. } => Kind::ChallengeReply,
        ShakeMsg::ChallengeAck { .. } => Kind::ChallengeAck,
    }
}
