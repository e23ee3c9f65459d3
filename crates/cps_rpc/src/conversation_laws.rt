//! What holds of all conversations.
ghost use Rattle.cps_rpc.specs.ConversationLaws.{ConversationGoesOn, OneConversation};

use crate::service::Service;

/// More bytes are answered behind what the others left, as if all had come at once.
pub fn a_conversation_goes_on<S: Service>()
    ensures { ConversationGoesOn S.answers S.has_ended }
{}

/// The bytes of an input decide what a service says that answers in one way, wherever they are cut into reads.
pub fn one_conversation<S: Service>()
    ensures { OneConversation S.answers S.has_ended }
{}
